// The public calls: the report of a table, and its row at an instant; from Rattle, and from C.
#![tactic(auto)]

mod exports;
mod figures;
mod plans;
mod reporting;
mod rowing;

pub use exports::{PhalandrixAnswer, PhalandrixRowAnswer, phalandrix_report, phalandrix_row};
pub use figures::figures_of;
pub use plans::{Laid, planned};
pub use reporting::{put_settled, report, round_of};
pub use rowing::{put_row, row};
