//! The steps of a run that evaluate: expressions and simple statements, over a store that is changed in place.
#![tactic(auto)]

mod expressions;
mod simple_statements;

pub use expressions::{condition, value};
pub use simple_statements::{all_values, simple};
