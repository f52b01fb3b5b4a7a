// The graph of each place: behind the last node of a graph those of the next one begin.
ghost use Rattle.std.specs.Prelude.{◌≡◌, ◌<◌};
ghost use Rattle.window.specs.Entries.{places};
ghost use Rattle.planning.specs.Graphs as Mirror;

use table::{Graph, Table};

// The number, in a graph, of the node at a place; 1 at a place before the graph.
pub fn number_in(y: Graph, i: usize) -> usize
    requires { i < places }
    ensures { result ≡ Mirror.number_in y i }
{
    i + 1 - y.first.min(i)
}

// The graph of the next place, where that of place i is graph g, from 0. There is none past the last graph of a table.
pub fn next_graph(y: Graph, i: usize, g: usize) -> usize
    requires { i < places }
    ensures { result ≡ Mirror.next_graph y i g }
{
    if number_in(y, i) == y.nodes && g < Table::GRAPHS - 1 {
        g + 1
    } else {
        g
    }
}
