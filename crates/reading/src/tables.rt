// The lines one after another: three for a table's head, for a graph's and for each node; then the table, or refusal 1 to 4.
ghost use Rattle.std.specs.Prelude.{◌≡◌, ◌+◌, ◌-◌, ◌<◌, ◌≤◌};
ghost use Rattle.schedule.specs.Limits as Limits;
ghost use Rattle.format.specs.Reading.{node, nodes_from, graph_nodes, graph, graphs_from, read_of};
ghost use Rattle.lines.specs.Numbered.{map_outcome, stands, Reads, came_at};
ghost use Rattle.reading.specs.Memory.{coded_node, with_graph, with_graphs, memory_of};
ghost use Rattle.reading.specs.Outcomes.{taken, added_graph, ended_graph};

use format::Refusal;
use lines::{FIRST_COLUMN, Lines, Place, Three, value_column};
use table::{Graph, Key, Node, Table};

// A graph's nodes, behind those of the graphs before it; `named` are the predecessors that some node's list has. (No heap: all entries are
// here, and the graph's head has their number.)
#[derive(Clone, Copy)]
pub struct Taken {
    pub nodes: [Node; Table::SERVERS],
    pub named: u32,
}

pub fn node_at(lines: &mut Lines, own: u32) -> Result<Node, Refusal>
    requires { own ≤ (Limits.nodes).to }
    ensures { Reads lines.old lines.new result (map_outcome coded_node (node own (stands lines.old))) }
{
    let t = lines.three(Key::Budget, Key::Level, Key::After, own)?;
    Ok(Node {
        budget: t.first,
        level: t.second,
        after: t.third,
    })
}

// The n nodes of a graph, into the entries from first on.
pub fn nodes_at(
    lines: &mut Lines,
    nodes: [Node; Table::SERVERS],
    first: usize,
    n: u32,
) -> Result<Taken, Refusal>
    requires { (first + n ≤ (Limits.all_nodes).to) × (n ≤ (Limits.nodes).to) }
    ensures { Reads lines.old lines.new result (map_outcome (taken nodes first 0) (nodes_from 1 n (stands lines.old))) }
{
    let mut list = nodes;
    let mut named: u32 = 0;
    for i in 0..n {
        let x = node_at(lines, i + 1)?;
        list[first + i as usize] = x;
        named |= x.after;
    }
    Ok(Taken { nodes: list, named })
}

// The table with one more graph, whose nodes are in the list already.
pub fn added(t: Table, head: Three, list: [Node; Table::SERVERS]) -> Table
    requires { (t.graphs < (Limits.graphs).to) × (t.nodes ≤ (Limits.all_nodes).to) }
    ensures { result ≡ added_graph t head list }
{
    let n = head.third as usize;
    let mut u = t;
    u.graph[t.graphs] = Graph {
        period: head.first,
        offset: head.second,
        first: t.nodes,
        nodes: n,
    };
    u.graphs += 1;
    u.nodes += n;
    u.node = list;
    u
}

// A graph whose nodes are read; the next line's number is told. What the mask leaves over are the nodes without a successor.
pub fn graph_ended(t: Table, head: Three, taken: Taken, next: u32) -> Result<Table, Refusal>
    requires { (t.graphs < (Limits.graphs).to) × (t.nodes ≤ (Limits.all_nodes).to) × (1 ≤ head.third) × (head.third ≤ (Limits.nodes).to) × (0 < next) }
    ensures { result ≡ ended_graph t head taken.nodes taken.named next }
{
    if numbers::unset_below(taken.named, head.third - 1) == 0 {
        Ok(added(t, head, taken.nodes))
    } else {
        let line = next - 1;
        let column = FIRST_COLUMN;
        Err(Refusal::AgainstPredecessorRules { line, column })
    }
}

// A graph's nodes, once the three lines of its head are read.
pub fn graph_nodes(lines: &mut Lines, t: Table, head: Three) -> Result<Table, Refusal>
    requires { (t.graphs < (Limits.graphs).to) × (t.nodes ≤ (Limits.all_nodes).to) × (1 ≤ head.third) × (head.third ≤ (Limits.nodes).to) }
    ensures { Reads lines.old lines.new result (map_outcome (with_graph t) (graph_nodes t.nodes head.first head.second head.third ((stands lines.old).line - 1) (stands lines.old))) }
{
    let n = head.third;
    if Table::SERVERS < t.nodes + n as usize {
        let line = lines.place.line - 1;
        let column = value_column(Key::Nodes);
        return Err(Refusal::OutsideLimits { line, column });
    }
    let taken = nodes_at(lines, t.node, t.nodes, n)?;
    graph_ended(t, head, taken, lines.place.line)
}

// (That there is room for a graph stands in these contracts and not in the type: a `Table` that is read to its end may have none.)
pub fn graph_at(lines: &mut Lines, t: Table) -> Result<Table, Refusal>
    requires { (t.graphs < (Limits.graphs).to) × (t.nodes ≤ (Limits.all_nodes).to) }
    ensures { Reads lines.old lines.new result (map_outcome (with_graph t) (graph t.nodes (stands lines.old))) }
{
    let head = lines.three(Key::Period, Key::Offset, Key::Nodes, 0)?;
    graph_nodes(lines, t, head)
}

pub fn graphs_at(lines: &mut Lines, t: Table, n: u32) -> Result<Table, Refusal>
    requires { (t.graphs + n ≤ (Limits.graphs).to) × (t.nodes ≤ (Limits.all_nodes).to) }
    ensures { Reads lines.old lines.new result (map_outcome (with_graphs t) (graphs_from t.nodes n (stands lines.old))) }
{
    let mut u = t;
    for _ in 0..n {
        u = graph_at(lines, u)?;
    }
    Ok(u)
}

// The whole table and the place behind it, or refusal 1 to 4.
pub fn table_read(s: &[u8]) -> Result<(Table, Place), Refusal>
    ensures { came_at s.now result ≡ map_outcome memory_of (read_of s.now) }
{
    if (Table::TABLE_BYTES_TO as usize) < s.len() {
        return Err(Refusal::TooLong);
    }
    let mut lines = Lines::new(s);
    let head = lines.three(Key::Processors, Key::Rounds, Key::Graphs, 0)?;
    let none = Table::empty(head.first, head.second);
    let t = graphs_at(&mut lines, none, head.third)?;
    lines.end()?;
    Ok((t, lines.place))
}
