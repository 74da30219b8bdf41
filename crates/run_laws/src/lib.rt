//! How dear the runs of a program are.
#![tactic(auto)]

mod costs;

pub use costs::{costs_are_small, costs_of_runs_fit};
