// Admitting a table: refusals 5, 6 and 12 of one that is read, after 1 to 4 of reading it.
#![tactic(auto)]

mod admitting;
mod loads;
mod paces;

pub use admitting::{Admitted, admit};
