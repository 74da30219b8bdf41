//! The greatest cost of counts that meet the rows of a plan (the optimum of implicit path enumeration, Li and Malik),
//! with counts that attain it and multipliers that bound it.
#![tactic(auto)]

mod ahead;
mod computing;
mod flows;
mod growing;
mod pieces;
mod potentials;
mod tree;
mod turns;

pub use computing::peak;
pub use peak_laws::Peak;
