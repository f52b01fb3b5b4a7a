// Release and link at an instant, over the state of a walk and one server at a time. Each function computes what the definition of the same
// name in window/specs says; `push` what `pushed` says.
#![tactic(auto)]

mod due;
mod entering;
mod instants;

pub use due::{all_fewer, linked_now};
pub use entering::{new_key, release};
pub use instants::{any_full, earliest, releases};
