// Lines: the expected key, a value, LF, each judged; the lines at a place of a text; and the reader that goes from line to line of a lent text, and tells the line and the
// column of what it refuses.
#![tactic(auto)]

mod judging;
mod numbering;
mod reader;

pub use judging::{is_within, value_column};
pub use numbering::{FIRST_COLUMN, Place, Three, one_at, three_at};
pub use reader::Lines;
