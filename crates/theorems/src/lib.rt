// What is proved of the schedule, up to demand 3: proofs/. This crate has no code.

#![tactic(auto)]
