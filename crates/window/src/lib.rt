// What a walk needs of a table, laid out by the places of its servers, and how it ends. This crate has no code: specs/ says
// what each function of the engine computes, and proofs/ that this is the schedule of the rules.
#![tactic(auto)]

use table::Table;

// By place: the node's budget; its predecessors, bit p for the node at place p; its level; its graph's period; how far the keys of two server
// jobs in a row lie apart, period × SERVERS; what a key is above its release × SERVERS, point × SERVERS + place; how many unfinished jobs make a
// backlog of one release more (UNFINISHED for a sink, more than a node can have elsewhere); and the numbers of its graph and of itself in
// the graph, for the row. Arrays by place, since the walk looks at one of these for all places at a time.
#[derive(Clone, Copy)]
pub struct Plan {
    pub processors: usize,
    pub nodes: usize,
    pub budget: [u16; Table::SERVERS],
    pub after: [u32; Table::SERVERS],
    pub level: [u8; Table::SERVERS],
    pub period: [u32; Table::SERVERS],
    pub step: [u32; Table::SERVERS],
    pub lead: [u32; Table::SERVERS],
    pub room: [u8; Table::SERVERS],
    pub graph: [u8; Table::SERVERS],
    pub node: [u8; Table::SERVERS],
}

// How a walk ended: in one of document 01's three ways, settled with its round; or at the instant asked, before any of them.
#[derive(Clone, Copy)]
pub enum How {
    Settled(u32),
    Unsettled,
    Backlog,
    Reached,
}

// How, at which instant, and the state there: before the releases of that instant, but after them where the walk ended at the instant asked.
#[derive(Clone, Copy)]
pub struct Walk<S> {
    pub how: How,
    pub ticks: u32,
    pub state: S,
}
