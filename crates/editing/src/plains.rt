// A table that was read, in the form without derived fields. By functions and not by `From`: both types of each are other crates'.
ghost use Rattle.std.specs.Prelude.{◌≡◌};
ghost use Rattle.editing.specs.Plains.{count_of, plain_graph, plain_node, plain_graphs, plain_nodes, plain_of};

use memory::{PhalandrixGraph, PhalandrixNode, PhalandrixTable};
use table::{Graph, Node, Table};

// A count in its narrower type; the largest one for what does not fit.
pub fn counted(n: usize) -> u32
    ensures { result ≡ count_of n }
{
    u32::try_from(n).unwrap_or(u32::MAX)
}

pub fn plain_graph(x: Graph) -> PhalandrixGraph
    ensures { result ≡ plain_graph x }
{
    PhalandrixGraph {
        period: x.period,
        offset: x.offset,
        nodes: counted(x.nodes),
    }
}

pub fn plain_node(x: Node) -> PhalandrixNode
    ensures { result ≡ plain_node x }
{
    PhalandrixNode {
        budget: x.budget,
        level: x.level,
        after: x.after,
    }
}

// Loops, and not the `map` of an array, which takes 3 kB of stack here and more time.
pub fn graphs_of(graphs: &[Graph; Table::GRAPHS]) -> [PhalandrixGraph; Table::GRAPHS]
    ensures { result ≡ plain_graphs graphs.now }
{
    let none = PhalandrixGraph {
        period: 0,
        offset: 0,
        nodes: 0,
    };
    let mut list = [none; Table::GRAPHS];
    for g in 0..Table::GRAPHS {
        list[g] = plain_graph(graphs[g]);
    }
    list
}

pub fn nodes_of(nodes: &[Node; Table::SERVERS]) -> [PhalandrixNode; Table::SERVERS]
    ensures { result ≡ plain_nodes nodes.now }
{
    let none = PhalandrixNode {
        budget: 0,
        level: 0,
        after: 0,
    };
    let mut list = [none; Table::SERVERS];
    for i in 0..Table::SERVERS {
        list[i] = plain_node(nodes[i]);
    }
    list
}

pub fn plain_of(t: Table) -> PhalandrixTable
    ensures { result ≡ plain_of t }
{
    PhalandrixTable {
        processors: t.processors,
        rounds: t.rounds,
        graphs: counted(t.graphs),
        graph: graphs_of(&t.graph),
        node: nodes_of(&t.node),
    }
}
