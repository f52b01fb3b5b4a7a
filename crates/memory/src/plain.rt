// A table in memory, for C as well: plain numbers in fixed arrays. Any content is a table in memory; not every one is well-formed.
use table::Table;

// Bit p - 1 of `after` is set for each predecessor p.
#[repr(C)]
#[derive(Clone, Copy, Default)]
pub struct PhalandrixNode {
    pub budget: u32,
    pub level: u32,
    pub after: u32,
}

// `nodes` is how many nodes it has.
#[repr(C)]
#[derive(Clone, Copy, Default)]
pub struct PhalandrixGraph {
    pub period: u32,
    pub offset: u32,
    pub nodes: u32,
}

// The first `graphs` of `graph` are the table's. Their nodes stand one after the other in `node`, graph after graph, from its start on: a
// graph's first node is found by counting those of the graphs before it. Nobody looks at what stands past the counts.
#[repr(C)]
#[derive(Clone, Copy, Default)]
pub struct PhalandrixTable {
    pub processors: u32,
    pub rounds: u32,
    pub graphs: u32,
    pub graph: [PhalandrixGraph; Table::GRAPHS],
    pub node: [PhalandrixNode; Table::SERVERS],
}
