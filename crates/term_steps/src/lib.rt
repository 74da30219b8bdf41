//! The terms of expressions, as code (C11 6.5).
#![tactic(auto)]

mod division;
mod elements;
mod expressions;
mod operands;
mod operators;
mod putting;
mod relations;

pub use elements::{array_in, element, held, held_ty, named, one_pick, within};
pub use expressions::{all_exprs, expr};
pub use operands::{joined, operated};
pub use putting::put;
