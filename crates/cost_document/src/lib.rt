//! The document of a table of costs: what its keys hold.
#![tactic(auto)]

mod document;
mod numbers;

pub use document::{cost_in, cost_table, default, entry, given, has_version_one, is_stray};
pub use numbers::numbers_held;
