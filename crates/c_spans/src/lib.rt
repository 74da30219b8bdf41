//! The spans of functions: how often their blocks can be entered while the bounds of loops are kept.
#![tactic(auto)]

mod spans;

pub use spans::function_spans;
