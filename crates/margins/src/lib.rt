// Margins against a promised age (document 02, R-12): the limit text, the margin lines, and what they say of the schedule. They stand in
// specs/, as definitions; this crate has no code.

#![tactic(auto)]
