// Reading an input, and tables out of one.
#![tactic(auto)]

mod reads;
mod taking;

pub use reads::{Lack, PIECE, after_read, read_input};
pub use taking::take_tables;
