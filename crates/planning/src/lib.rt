// What a walk needs of a table, made once a call: the plan of its ticks, by the places of its servers; the offset at each place; and the
// largest offset, from which the boundaries are counted. Every function here is total: a number that a field has no room for becomes the
// largest one that it has room for, and the nodes past the last place are left out. No table that is admitted has either.
#![tactic(auto)]

mod graphs;
mod offsets;
mod places;
mod plans;

pub use offsets::{largest_offset, offsets_of};
pub use plans::plan_of;
