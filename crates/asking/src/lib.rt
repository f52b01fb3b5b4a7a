// What the program's arguments ask, as functions of their bytes.
#![tactic(auto)]

mod arguments;
mod faults;
mod instants;
mod lengths;
mod questions;
mod rooms;
mod words;

pub use arguments::{Passed, instant_told, passed_by};
pub use faults::Fault;
pub use instants::instant_of;
pub use lengths::{Lengths, lengths_on, no_lengths};
pub use questions::{Account, Asked, Question, question_of};
pub use rooms::Word;
pub use words::WORD_ROOM;
