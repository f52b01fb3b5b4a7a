// The hyperperiod within its limit, and the load: what each node needs is taken off the room that the processors have.
ghost use Rattle.std.specs.Prelude.{◌≡◌, ◌+◌, ◌*◌, ◌/◌, get_or};
ghost use Rattle.schedule.specs.Limits as Limits;
ghost use Rattle.table.specs.Fresh.{no_graph, no_node};
ghost use Rattle.reading.specs.Memory.{graph_of, table_of};
ghost use Rattle.admission.specs.Loads.{hyperperiod_within, room_after, graph_load, graphs_load};

use table::{Graph, Node, Table};

// Past the array an empty graph, so that no count asks anything of a caller; so with the nodes.
pub fn graph_of(t: &Table, g: usize) -> Graph
    ensures { result ≡ get_or t.now.graph g no_graph }
{
    t.graph.get(g).copied().unwrap_or(Graph {
        period: 0,
        offset: 0,
        first: 0,
        nodes: 0,
    })
}

// Node k, from 0, of those from first on.
pub fn node_of(t: &Table, first: usize, k: usize) -> Node
    ensures { result ≡ get_or t.now.node (first + k) no_node }
{
    let place = first.checked_add(k).unwrap_or(Table::SERVERS);
    t.node.get(place).copied().unwrap_or(Node {
        budget: 0,
        level: 0,
        after: 0,
    })
}

// The least common multiple of the periods; none as soon as it is past the limit.
pub fn hyperperiod_of(t: &Table) -> Option<u32>
    ensures { result ≡ hyperperiod_within (Limits.hyperperiod).to 1 (table_of t.now).graphs }
{
    let mut h: u32 = 1;
    for g in 0..t.graphs {
        let x = graph_of(t, g);
        h = numbers::lcm_within(h, x.period, Table::HYPERPERIOD_TO)?;
    }
    Some(h)
}

// The room left after budget × times; none where that is not enough.
pub fn room_after(room: u64, budget: u32, times: u32) -> Option<u64>
    ensures { result ≡ room_after room (budget * times) }
{
    let need = budget as u64 * times as u64;
    room.checked_sub(need)
}

// The room left after each node of a graph has had its budget `times` times.
pub fn graph_room(t: &Table, x: Graph, times: u32, room: u64) -> Option<u64>
    ensures { result ≡ room_after room (graph_load times (graph_of t.now.node x)) }
{
    let mut left = room;
    for k in 0..x.nodes {
        let y = node_of(t, x.first, k);
        left = room_after(left, y.budget, times)?;
    }
    Some(left)
}

// H/period
pub fn times_in(h: u32, period: u32) -> u32
    ensures { result ≡ h / period }
{
    h.checked_div(period).unwrap_or(0)
}

// A table is loadable when its load leaves room, be it none, in processors × H.
pub fn load_room(t: &Table, h: u32) -> Option<u64>
    ensures { result ≡ room_after (t.now.processors * h) (graphs_load h (table_of t.now).graphs) }
{
    let mut left = t.processors as u64 * h as u64;
    for g in 0..t.graphs {
        let x = graph_of(t, g);
        left = graph_room(t, x, times_in(h, x.period), left)?;
    }
    Some(left)
}
