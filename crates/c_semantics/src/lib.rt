//! What several crates compute of the meaning of C: conversions and operators on values, the types of operators'
//! results, which statements are simple, and how many blocks a list has. Each call's contract is an equation with the
//! definition of `c_tree`.
#![tactic(auto)]

mod blocks;
mod operators;
mod types;
mod values;

pub use blocks::{is_simple, list_blocks};
pub use operators::{binary, operated, unary};
pub use types::{bin_ty, un_ty};
pub use values::{common, convert, is_nonzero, of_word, truth, ty_of, word, zero_of};
