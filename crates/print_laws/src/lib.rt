//! The printed text of a program, and that it is read again as that program.
#![tactic(auto)]

pub mod law;
