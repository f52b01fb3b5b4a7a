// Document 01's table in memory and its schedule, as definitions that compute: specs/. This crate has no code.

#![tactic(auto)]
