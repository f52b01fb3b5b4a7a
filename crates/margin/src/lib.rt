// The call of document 02's R-12: the margins of a table against the limits of a second text; from Rattle, and from C.
#![tactic(auto)]

mod answering;
mod exports;
mod writing_out;

pub use answering::{MarginAnswer, MarginRefusal, margin};
pub use exports::{PhalandrixMargin, phalandrix_margin};
