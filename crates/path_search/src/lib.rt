//! Which inputs drive a list of edges: whether one does, and a search for one.
#![tactic(auto)]

mod asking;
mod driving;
mod finding;
mod formula;
mod found;
mod nonzero;
mod reading;

pub use driving::is_driven_by;
pub use finding::find_input;
pub use found::Found;
