//! What the rows leave of the counts of an item's paths, and the bound that this gives on what they cost.
#![tactic(auto)]

mod bound;
mod counting;
mod left;

pub use bound::{bound_by, bound_left};
pub use left::counts_left;
