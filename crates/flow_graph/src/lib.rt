//! The flat graph of a program, calls inlined, as a plan that owns the program and its costs.
#![tactic(auto)]

mod fault;
mod graph;
mod law;
mod layout;
mod lists;
mod planning;
mod unfold;

pub use fault::PlanFault;
pub use flow_laws::{Edge, Loop, Node, Way};
pub use graph::Plan;
pub use graph_lists::{Outs, Span, Touch};
pub use law::worked_limits;
pub use planning::plan;
