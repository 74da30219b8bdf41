//! The race of one worker, and the report that is written on it.
#![tactic(auto)]

mod cut;
mod ending;
mod mode;
mod race;
mod squeeze;

pub use mode::squeeze_texts;
pub use squeeze::squeeze_alone;
