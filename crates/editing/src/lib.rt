// The calls for an editor that holds graphs (R-4): a table read into memory, and a table in memory written.
#![tactic(auto)]

mod plains;
mod reads;
mod writes;

pub use reads::{read, rewrite};
pub use writes::write;
