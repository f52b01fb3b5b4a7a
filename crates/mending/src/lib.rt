// A spoiled line, byte by byte: what is known of it, what each byte adds to the text that is left, the kinds of change, and their lines of the
// list; measured, and written in a lent part of a buffer.
#![tactic(auto)]

mod fixes;
mod line;
mod place;
mod text;

pub use fixes::Kinds;
pub use line::{Line, number_after};
pub use place::Place;
pub use text::Added;
