// Document 01's worked tables, from their bytes to what the program prints: specs/, computed in proofs/. This crate has no code.

#![tactic(auto)]
