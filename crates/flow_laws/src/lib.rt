//! The flat graph of a program, its paths, and what inputs drive: definitions and laws.
#![tactic(auto)]

mod graph;
pub mod laws;

pub use graph::{Edge, Loop, Node, Way};
