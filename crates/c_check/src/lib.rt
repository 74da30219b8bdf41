//! From the tree of a C text to its program: names become numbers, and what is not allowed is refused with its place.
#![tactic(auto)]

mod checking;
mod entry;
mod fault;

pub use checking::check;
pub use fault::CheckFault;
