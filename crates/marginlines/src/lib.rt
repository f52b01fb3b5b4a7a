// The text of margins (document 02, R-12): the report's, with a line `margin=` after each `response=`. The writers are those of the report.
#![tactic(auto)]

mod line;
mod text;

pub use text::{MARGIN_BYTES, margins_length, put_margins};
