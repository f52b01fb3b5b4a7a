// A table in memory without derived fields, as an editor holds it (R-4), and its judgement in the order of the lines it would stand on:
// refusals 3 and 4.
#![tactic(auto)]

mod judging;
mod plain;

pub use judging::table_judged;
pub use plain::{PhalandrixGraph, PhalandrixNode, PhalandrixTable};
