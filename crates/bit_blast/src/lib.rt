//! Formulas of conditions: the clauses of the circuits of terms, and the inputs that satisfying assignments say.
#![tactic(auto)]

mod blasted;
mod blasting;
mod conditions;
mod decoding;
mod gates;
mod tidy;

pub use blasted::Blasted;
pub use blasting::blast;
pub use decoding::decode;
