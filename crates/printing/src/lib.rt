// What the program prints: for a question about a table, and for several tables.
#![tactic(auto)]

mod answering;
mod batching;

pub use answering::put_answer_to;
pub use batching::{SLOT, SLOTS, put_batch};
