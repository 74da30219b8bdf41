//! Definitions and laws of the optimum of implicit path enumeration (Li and Malik): a program's flat graph as a tree of
//! parts, its dearest ways, and that counts and multipliers made of them are an optimum of the rows.
#![tactic(auto)]

mod answer;
mod law;
mod ways;

pub use answer::Peak;
pub use law::{
    computed_is_peak, optimum_is_above, optimum_of_part, part_attains, part_bounds, worked_peaks,
};
pub use ways::{Leaving, Ways};
