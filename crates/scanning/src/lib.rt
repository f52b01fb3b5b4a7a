// Scanners over lent bytes: fixed text, a byte, a number, a list of predecessors.
#![tactic(auto)]

mod lists;
mod scanners;

pub use lists::{Listing, fault_at, in_order, list_at};
pub use scanners::{Wrong, byte_at, grown, number_at, text_at};
