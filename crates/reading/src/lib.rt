// Reading a table from the caller's own bytes: refusals 1 to 4.
#![tactic(auto)]

mod tables;

pub use tables::table_read;
