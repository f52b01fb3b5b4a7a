// The offset of the graph of the node at each place, and the largest offset.
ghost use Rattle.std.specs.Prelude.{◌≡◌};
ghost use Rattle.planning.specs.Offsets as Mirror;

use crate::graphs::next_graph;
use table::Table;

pub fn offsets_of(table: Table) -> [u32; Table::SERVERS]
    ensures { result ≡ Mirror.offsets_of table }
{
    let n = table.nodes.min(Table::SERVERS);
    let mut o = [0u32; Table::SERVERS];
    let mut g: usize = 0;
    for i in 0..n {
        let y = table.graph[g];
        o[i] = y.offset;
        g = next_graph(y, i, g);
    }
    o
}

pub fn largest_offset(table: Table) -> u32
    ensures { result ≡ Mirror.largest_offset_of table }
{
    let graphs = table.graphs.min(Table::GRAPHS);
    let mut most: u32 = 0;
    for y in &table.graph[..graphs] {
        most = most.max(y.offset);
    }
    most
}
