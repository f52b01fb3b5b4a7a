// Well-spelled lines, said without a scanner, and where a line goes wrong: specs/ and proofs/. This crate has no code.

#![tactic(auto)]
