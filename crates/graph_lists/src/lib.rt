//! The lists from which a plan is laid out: what a function counts with its calls inlined, and of nodes as they are
//! laid out the edges, the loop copies, what leaves each node, where loop copies stand and what an edge does to loops.
#![tactic(auto)]

mod interval;
mod joints;
mod onward;
mod sizes;
mod spot;
mod touch;

pub use interval::{Span, spans_of};
pub use joints::{edges_of, first_above, loops_of};
pub use onward::{Outs, outs_by_node};
pub use sizes::{Weights, amounts, list_amount, stmt_amount};
pub use spot::{Ends, Spot, Turn};
pub use touch::{Touch, keeps_all, touches_by_edge};
