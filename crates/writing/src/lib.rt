// The text of an answer, written into a buffer that the caller lends. Each writer is lent the part of the buffer from the current end
// onward, writes its text at the start of that part and only there, and tells the text's length.
#![tactic(auto)]

mod line;
mod number;
mod refusal;
mod report;
mod row;

pub use line::{line_length, put_bytes, put_ended, put_line, put_pair};
pub use number::digits;
pub use refusal::{column_of, line_of, number_of, put_refusal, refusal_length};
pub use report::{put_report, report_length};
pub use row::{Row, Run, put_row, row_length};
