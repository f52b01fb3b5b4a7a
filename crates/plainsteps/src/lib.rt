// One instant of the plain engine: work done up to it is finished, then jobs and server jobs are released and linked; and whether that makes a
// backlog. Each function computes what the definition of its name in ledger/specs says.
#![tactic(auto)]

mod backlog;
mod finishing;
mod instants;
mod releasing;

pub use backlog::backlogged;
pub use finishing::finish;
pub use instants::{instant_after, slot};
pub use releasing::release;
