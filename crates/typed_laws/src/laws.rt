//! Facts about the definitions, as the contracts of functions that do nothing.

pub mod spelled;
pub mod typed;
