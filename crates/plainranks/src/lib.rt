// The tick of an instant: which server jobs are ready, how many of them stand before one, and so which run (rules 4, 5 and 6); and the row that
// shows them. Each function computes what the definition of its name in ledger/specs says.
#![tactic(auto)]

mod ranks;
mod row;
mod running;

pub use row::row_of;
pub use running::run;
