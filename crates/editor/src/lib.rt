// The calls of R-4 for C.
#![tactic(auto)]

mod exports;

pub use exports::{PhalandrixReading, phalandrix_read, phalandrix_write};
