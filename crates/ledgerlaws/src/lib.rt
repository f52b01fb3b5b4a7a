// What is proved of the plain engine's ledger: each operation on it is the schedule of the rules. This crate has no code.

#![tactic(auto)]
