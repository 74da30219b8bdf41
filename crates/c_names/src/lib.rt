//! The names in scope (C11 6.2.1), and what each stands for.
#![tactic(auto)]

mod names;

pub use names::{Entity, Names};
