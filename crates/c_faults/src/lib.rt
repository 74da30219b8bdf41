//! Faults of a unit of C: of all that are heard of, the one that is told.
#![tactic(auto)]

mod fault;
mod verdict;

pub use fault::{CheckRefusal, Fault};
pub use verdict::{MAX_BOUND, Verdict};
