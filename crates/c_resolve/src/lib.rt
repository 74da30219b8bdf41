//! The names of a unit of C: each becomes the number of what it stands for, and the first fault of its uses is kept.
#![tactic(auto)]

mod checker;
mod expr;
mod resolved;
mod stmt;
mod unit;

pub use resolved::{Resolved, resolve};
