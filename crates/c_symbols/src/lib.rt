//! What the reader of C texts is made of, below its cycles: which word or mark of the grammar a token is, how operators
//! bind, and expressions with their heights.
#![tactic(auto)]

mod expressions;
mod operators;
mod symbol;

pub use expressions::{
    MeasuredExpr, binary, cast, conditional, element, measured, parenthesised, scalar, unary,
};
pub use operators::{binds, level, next_of, unary_operator};
pub use symbol::{bound_of, constant_of, symbol_of};
