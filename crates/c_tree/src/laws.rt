//! Facts about the definitions, as the contracts of functions that do nothing.

pub mod arithmetic;
pub mod expressions;
pub mod kept;
pub mod operators;
pub mod runs;
pub mod spans;
pub mod statements;
pub mod symbols;
pub mod traces;
pub mod values;
pub mod well_formed;
