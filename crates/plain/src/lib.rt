// The public calls of the plain engine: the report of a table, and its row at an instant; from Rattle, and from C. Reading, admission and the
// text of an answer are those of the first engine's calls.
#![tactic(auto)]

mod exports;
mod reporting;
mod rowing;
mod walks;

pub use exports::{phalandrix_plain_report, phalandrix_plain_row};
pub use reporting::plain_report;
pub use rowing::plain_row;
