//! A search for an assignment that satisfies a formula, by unit propagation and learned clauses.
#![tactic(auto)]

mod analysis;
mod known;
mod learn;
mod propagate;
mod search;
mod solver;
mod verdict;

pub use solver::solve;
pub use verdict::Verdict;
