// Numbers that a table needs beyond the machine's own operations: the greatest common divisor and the step of the least common
// multiple; and sets of numbers below 32, each held in one mask.
#![tactic(auto)]

mod masks;
mod multiples;

pub use masks::{lowest, ones, unset_below, with, without};
pub use multiples::lcm_within;
