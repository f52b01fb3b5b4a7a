// The lines of a graph, and of a table.
ghost use Rattle.std.specs.Prelude.{◌≡◌, ◌≤◌, length};
ghost use Rattle.schedule.specs.Limits as Limits;
ghost use Rattle.memory.specs.Plain.{graphs_in};
ghost use Rattle.writing.specs.Written.{Written};
ghost use Rattle.putting.specs.Texts.{nodes_lines, graph_lines, graphs_lines, table_lines, all_nodes};

use crate::node::{put_node, put_three};
use memory::{PhalandrixGraph, PhalandrixNode, PhalandrixTable};
use table::Key;

// The nodes of a graph; each line begins where the line before it ended.
fn put_nodes(part: &mut [u8], nodes: &[PhalandrixNode]) -> usize
    requires { length (nodes_lines nodes.now 0 (length nodes.now)) ≤ length part.old }
    ensures { Written (nodes_lines nodes.now 0 (length nodes.now)) part.old part.new result }
{
    let mut at: usize = 0;
    for node in nodes {
        at += put_node(&mut part[at..], *node);
    }
    at
}

// A graph and its nodes.
fn put_graph(part: &mut [u8], g: PhalandrixGraph, nodes: &[PhalandrixNode]) -> usize
    requires { (length nodes.now ≡ g.nodes) × (length (graph_lines g nodes.now 0) ≤ length part.old) }
    ensures { Written (graph_lines g nodes.now 0) part.old part.new result }
{
    let at = put_three(
        &mut *part,
        (Key::Period, g.period),
        (Key::Offset, g.offset),
        (Key::Nodes, g.nodes),
    );
    at + put_nodes(&mut part[at..], nodes)
}

// The nodes of each graph begin where those of the one before it ended.
fn put_graphs(part: &mut [u8], graphs: &[PhalandrixGraph], nodes: &[PhalandrixNode]) -> usize
    requires { (all_nodes (graphs_in graphs.now nodes.now 0 0 (length graphs.now)) ≤ length nodes.now) × (length (graphs_lines graphs.now nodes.now (length graphs.now)) ≤ length part.old) }
    ensures { Written (graphs_lines graphs.now nodes.now (length graphs.now)) part.old part.new result }
{
    let mut at: usize = 0;
    let mut first: usize = 0;
    for g in graphs {
        let past = first + g.nodes as usize;
        let own = &nodes[first..past];
        at += put_graph(&mut part[at..], *g, own);
        first = past;
    }
    at
}

pub fn put_table(part: &mut [u8], t: PhalandrixTable) -> usize
    requires { (t.graphs ≤ (Limits.graphs).to) × (all_nodes (graphs_in t.graph t.node 0 0 t.graphs) ≤ (Limits.all_nodes).to) × (length (table_lines t) ≤ length part.old) }
    ensures { Written (table_lines t) part.old part.new result }
{
    let at = put_three(
        &mut *part,
        (Key::Processors, t.processors),
        (Key::Rounds, t.rounds),
        (Key::Graphs, t.graphs),
    );
    at + put_graphs(&mut part[at..], &t.graph[..t.graphs as usize], &t.node)
}
