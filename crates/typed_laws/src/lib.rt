//! What a program keeps that is typed from a unit which the tokens of some text spell.
#![tactic(auto)]

pub mod laws;
mod programs;

pub use programs::{program_is_typed, program_is_well_formed};
