// The row at an instant: which server jobs run there, from the windows of a walk. specs/ says what each function computes, and proofs/ that
// this is document 01's row.
#![tactic(auto)]

mod row;
mod run;

pub use row::row_of;
