//! Constant expressions (C11 6.6): their values, and the lengths of arrays.
#![tactic(auto)]

mod constants;

pub use constants::{array_length, constant, first_token, kept_number, written_length};
