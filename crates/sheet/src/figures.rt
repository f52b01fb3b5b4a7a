// The figure of each graph: the largest response that the walk has kept of its sink.
ghost use Rattle.std.specs.Prelude.{◌≡◌};
ghost use Rattle.sheet.specs.Figures as Mirror;

use table::{Graph, Table};

// The place of a graph's sink; 0 for a graph that no table has.
pub fn sink_of(g: Graph) -> usize
    ensures { result ≡ Mirror.sink_of g }
{
    if Table::SERVERS < g.first || Table::SERVERS < g.nodes {
        return 0;
    }
    (g.first + g.nodes).saturating_sub(1)
}

// The largest response at a place; 0 where there is no such place.
pub fn worst_at(worst: &[u32; Table::SERVERS], i: usize) -> u32
    ensures { result ≡ Mirror.worst_at worst.now i }
{
    worst.get(i).copied().unwrap_or(0)
}

pub fn figures_of(
    graph: [Graph; Table::GRAPHS],
    worst: [u32; Table::SERVERS],
) -> [u32; Table::GRAPHS]
    ensures { result ≡ Mirror.figures_in graph worst }
{
    let mut f = [0u32; Table::GRAPHS];
    for g in 0..Table::GRAPHS {
        f[g] = worst_at(&worst, sink_of(graph[g]));
    }
    f
}
