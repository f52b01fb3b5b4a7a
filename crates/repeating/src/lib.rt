// A row at or past the stop of a settled walk (R-10): the instant of the last round that matches the one asked, and the row there, moved on by
// the periods passed.
#![tactic(auto)]

mod instants;
mod moving;

pub use instants::matching;
pub use moving::far_row;
