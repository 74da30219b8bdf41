//! Boxes of counts: narrowing a box to what rows leave of it, and splitting a box at a count of one edge.
#![tactic(auto)]

mod narrow;
mod slack;
mod split;

pub use narrow::{Tight, tighten};
pub use split::split_at;
