//! From the texts of cases to plans, for the test programs.
#![tactic(auto)]

mod reading;
mod wrong;

pub use reading::{plain_plan_of, plan_of};
pub use wrong::Wrong;
