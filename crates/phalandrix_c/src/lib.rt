// The calls for C, of include/phalandrix.h. Each is the call of the library under the same name, with the same clauses; the structs that pass by
// value are the libraries' own. This is a static library: a crate that Rattle calls cannot export to C.
#![tactic(auto)]

mod batches;
mod memories;
mod plain_reports;
mod reports;
mod salvages;
mod with_limits;
