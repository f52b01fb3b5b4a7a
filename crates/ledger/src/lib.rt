// What the plain engine knows at an instant, in absolute numbers, and the state that it forms of this at a boundary. This crate has no code:
// specs/ says what each function of the plain engine computes, and proofs/ that this is the schedule of the rules.
#![tactic(auto)]

use table::Table;

// By the place of a node's server: how many server jobs, and so invocations, are released; how many server jobs are complete, which are the
// first ones; how many jobs are linked, and how many finished; and the largest response of its jobs so far. Of each pending server job, at the
// slot of its number: the ticks that it has used, and the number of the job linked to it, 0 for none. (Its deadline is rule 1's.) Arrays of numbers
// by place and by slot, since memory is fixed, each step reads one or two of them at every place, and the state formed of them is compared number by
// number; so a link that is absent is a number too.
#[derive(Clone, Copy)]
pub struct Ledger {
    pub released: [u32; Table::SERVERS],
    pub complete: [u32; Table::SERVERS],
    pub linked: [u32; Table::SERVERS],
    pub finished: [u32; Table::SERVERS],
    pub worst: [u32; Table::SERVERS],
    pub used: [u32; Ledger::SLOTS],
    pub link: [u32; Ledger::SLOTS],
}

// Document 01's state. By place: the phase of the node's graph in its period; invocations released less jobs finished; invocations released
// less jobs linked; how many server jobs are pending. Of the pending server jobs in order, at place × ROOM + position: the budget left; and 0
// for an unlinked one, else one more than by how many numbers the job lies behind its server job.
#[derive(Clone, Copy)]
pub struct Formed {
    pub phase: [u32; Table::SERVERS],
    pub unfinished: [u32; Table::SERVERS],
    pub unlinked: [u32; Table::SERVERS],
    pub pending: [u32; Table::SERVERS],
    pub left: [u32; Ledger::SLOTS],
    pub behind: [u32; Ledger::SLOTS],
}

// Of one server: how many server jobs are complete, how many jobs are finished, and their largest response.
#[derive(Clone, Copy)]
pub struct Done {
    pub complete: u32,
    pub finished: u32,
    pub worst: u32,
}

// A server job: its server's place, and its number.
#[derive(Clone, Copy)]
pub struct Found {
    pub place: usize,
    pub number: u32,
}

impl Ledger {
    // As many pending server jobs as are allowed, and the one more that makes a backlog.
    pub const ROOM: usize = Table::WINDOW + 1;

    pub const SLOTS: usize = Table::SERVERS * Ledger::ROOM;
}
