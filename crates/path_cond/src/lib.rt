//! The condition of a list of edges: the terms that are all nonzero exactly at the inputs that drive it.
#![tactic(auto)]

mod calls;
mod edges;
mod inputs;
mod memory;
mod path;
mod starts;

pub use cond_laws::PathCond;
pub use path::condition;
pub use path_weight::weight;
