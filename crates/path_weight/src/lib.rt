//! How large the formula of a list of edges may become.
#![tactic(auto)]

mod blocks;
mod expressions;
mod lists;
mod scope;
mod statements;

pub use lists::weight;
