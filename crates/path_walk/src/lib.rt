//! How a path goes on from a given beginning while only one edge may follow, and where its paths part.
#![tactic(auto)]

mod counters;
mod law;
mod next;
mod step;
mod walk;

pub use law::{answers_are_unique, answers_cover_paths};
pub use next::Next;
pub use walk::extend;
