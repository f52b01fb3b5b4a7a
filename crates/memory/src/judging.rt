// A table in memory, judged line by line as the reader would judge the lines it would stand on.
ghost use Rattle.std.specs.Prelude.{◌≡◌, ◌+◌, ◌*◌, ◌^◌, ◌<◌, ◌≤◌, fold, length, map};
ghost use Rattle.schedule.specs.Limits as Limits;
ghost use Rattle.schedule.specs.WellFormed.{orderly};
ghost use Rattle.writer.specs.Judging.{number_at, node_at, nodes_at, successors_at, graph_nodes_at, graph_at, graphs_at, table_at};
ghost use Rattle.table.specs.Keys.{place};
ghost use Rattle.memory.specs.Plain.{numbers_in, node_in, nodes_in, graph_in, graphs_in, table_in};
ghost use Rattle.memory.specs.Judged.{outside_at, against_at, three_at, judged_as, judged_of, with_after};

use crate::plain::{PhalandrixGraph, PhalandrixNode, PhalandrixTable};
use format::Refusal;
use lines::is_within;
use table::{Key, Table};

// Line 1 is the first of a table's head, and its graphs begin behind the head's three.
const HEAD: u32 = 1;

const LINES: u32 = 3;

// The writer has no bytes to point at.
const NO_COLUMN: u32 = 0;

pub fn outside(line: u32) -> Refusal
    ensures { result ≡ outside_at line }
{
    let column = NO_COLUMN;
    Refusal::OutsideLimits { line, column }
}

pub fn against(line: u32) -> Refusal
    ensures { result ≡ against_at line }
{
    let column = NO_COLUMN;
    Refusal::AgainstPredecessorRules { line, column }
}

// The number v of key k.
#[tactic(auto, unfolding(writer::specs::Judging::number_at))]
pub fn number_judged(k: Key, v: u32, line: u32) -> Result<(), Refusal>
    ensures { judged_as (line + 1) result ≡ number_at (place k) v line }
{
    if is_within(k, v) {
        Ok(())
    } else {
        Err(outside(line))
    }
}

// Three numbers, each of its key, on three lines: the head of a table or of a graph.
pub fn three_judged(
    one: (Key, u32),
    two: (Key, u32),
    three: (Key, u32),
    line: u32,
) -> Result<(), Refusal>
    requires { line + 3 < 2 ^ 32 }
    ensures { judged_as (line + 3) result ≡ three_at (place one.0) one.1 (place two.0) two.1 (place three.0) three.1 line }
{
    number_judged(one.0, one.1, line)?;
    number_judged(two.0, two.1, line + 1)?;
    number_judged(three.0, three.1, line + 2)
}

// The predecessors in a mask may be those of node number own: node 1 has none, and no other node has none; and each is below own.
pub fn is_orderly(own: u32, mask: u32) -> bool
    requires { (1 ≤ own) × (own ≤ (Limits.nodes).to) }
    ensures { result ≡ orderly own (numbers_in mask) }
{
    if mask == 0 {
        own == 1
    } else {
        mask >> (own - 1) == 0
    }
}

#[tactic(auto, unfolding(writer::specs::Judging::node_at, writer::specs::Judging::after_at))]
pub fn node_judged(x: PhalandrixNode, own: u32, line: u32) -> Result<(), Refusal>
    requires { (1 ≤ own) × (own ≤ (Limits.nodes).to) × (line + 3 < 2 ^ 32) }
    ensures { judged_as (line + 3) result ≡ node_at own (node_in x) line }
{
    number_judged(Key::Budget, x.budget, line)?;
    number_judged(Key::Level, x.level, line + 1)?;
    if is_orderly(own, x.after) {
        Ok(())
    } else {
        Err(against(line + 2))
    }
}

// The nodes of a graph.
pub fn nodes_judged(nodes: &[PhalandrixNode], line: u32) -> Result<(), Refusal>
    requires { (length nodes.now ≤ (Limits.nodes).to) × (line + 3 * length nodes.now < 2 ^ 32) }
    ensures { judged_as (line + 3 * length nodes.now) result ≡ nodes_at 1 (map node_in nodes.now) line }
{
    for (i, x) in nodes.iter().enumerate() {
        let i = i as u32;
        node_judged(*x, i + 1, line + LINES * i)?;
    }
    Ok(())
}

// The predecessors that some node's list has.
pub fn named(nodes: &[PhalandrixNode]) -> u32
    ensures { result ≡ fold with_after 0 nodes.now }
{
    nodes.iter().fold(0, |all, x| all | x.after)
}

// The missing successor, charged to the graph's last line; `line` is the one behind it.
pub fn successors_judged(nodes: &[PhalandrixNode], line: u32) -> Result<(), Refusal>
    requires { (1 ≤ length nodes.now) × (length nodes.now ≤ (Limits.nodes).to) × (1 ≤ line) }
    ensures { judged_as line result ≡ successors_at (map node_in nodes.now) line }
{
    let last = nodes.len() as u32 - 1;
    if numbers::unset_below(named(nodes), last) == 0 {
        Ok(())
    } else {
        Err(against(line - 1))
    }
}

// The n nodes of a graph, behind the `total` nodes of the graphs before it; `nodes` stands on this line. It takes the array and the counts, since
// whether there are so many nodes is part of the judgement.
pub fn graph_nodes_judged(
    nodes: &[PhalandrixNode; Table::SERVERS],
    total: usize,
    n: u32,
    line: u32,
) -> Result<(), Refusal>
    requires { (total ≤ (Limits.all_nodes).to) × (1 ≤ n) × (n ≤ (Limits.nodes).to) × (line + 1 + 3 * n < 2 ^ 32) }
    ensures { judged_as (line + 1 + 3 * n) result ≡ graph_nodes_at total (nodes_in nodes.now total n) line (line + 1) }
{
    let Some(own) = nodes.get(total..total + n as usize) else {
        return Err(outside(line));
    };
    nodes_judged(own, line + 1)?;
    successors_judged(own, line + 1 + LINES * n)
}

pub fn graph_judged(
    g: PhalandrixGraph,
    nodes: &[PhalandrixNode; Table::SERVERS],
    total: usize,
    line: u32,
) -> Result<(), Refusal>
    requires { (total ≤ (Limits.all_nodes).to) × (line + 3 + 3 * (Limits.nodes).to < 2 ^ 32) }
    ensures { judged_as (line + 3 + 3 * g.nodes) result ≡ graph_at total (graph_in nodes.now total g) line }
{
    three_judged(
        (Key::Period, g.period),
        (Key::Offset, g.offset),
        (Key::Nodes, g.nodes),
        line,
    )?;
    graph_nodes_judged(nodes, total, g.nodes, line + 2)
}

pub fn graphs_judged(
    graphs: &[PhalandrixGraph],
    nodes: &[PhalandrixNode; Table::SERVERS],
) -> Result<(), Refusal>
    requires { length graphs.now ≤ (Limits.graphs).to }
    ensures { result ≡ judged_of (graphs_at 0 (graphs_in graphs.now nodes.now 0 0 (length graphs.now)) 4) }
{
    let mut total: usize = 0;
    let mut line = HEAD + LINES;
    for g in graphs {
        graph_judged(*g, nodes, total, line)?;
        total += g.nodes as usize;
        line += LINES + LINES * g.nodes;
    }
    Ok(())
}

// The whole table.
pub fn table_judged(t: PhalandrixTable) -> Result<(), Refusal>
    ensures { result ≡ judged_of (table_at (table_in t) 1) }
{
    three_judged(
        (Key::Processors, t.processors),
        (Key::Rounds, t.rounds),
        (Key::Graphs, t.graphs),
        HEAD,
    )?;
    let graphs = &t.graph[..t.graphs as usize];
    graphs_judged(graphs, &t.node)
}
