// Several tables in one call (R-1), from Rattle and from C.
#![tactic(auto)]

mod exports;
mod lengths;
mod shares;

pub use exports::{PhalandrixBatch, phalandrix_batch};
