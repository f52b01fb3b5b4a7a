// The state of document 01 at a boundary, formed from the ledger as it is listed there, and compared with the one before. Each function computes
// what the definition of its name in ledger/specs says.
#![tactic(auto)]

mod comparing;
mod forming;

pub use comparing::same_state;
pub use forming::{blank_state, form};
