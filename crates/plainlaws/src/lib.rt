// What is proved of the plain engine's calls: the rules' answers, and so the first engine's. This crate has no code.

#![tactic(auto)]
