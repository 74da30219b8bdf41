//! What each node of a plan does, lent from the plan's program.
#![tactic(auto)]

mod block;
mod gathering;
mod law;
mod table;

pub use block::Content;
pub use law::{acting_needs_no_loop, worked_contents};
pub use table::{Contents, contents_of};
