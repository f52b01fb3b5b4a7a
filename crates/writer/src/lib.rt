// Writing a table back, and what is proved of it: specs/ and proofs/. This crate has no code.

#![tactic(auto)]
