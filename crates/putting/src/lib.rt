// The text of a table in memory (R-4), written into a part of a buffer. Each writer is lent the part from the current end onward, writes its
// text at the start of that part and only there, and tells the text's length.
#![tactic(auto)]

mod node;
mod tables;

pub use tables::put_table;
