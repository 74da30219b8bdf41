//! What a report on a race says of the runs of a program: definitions and laws.
#![tactic(auto)]

mod law;

pub use law::{reports_hold, whole_lines_hold};
