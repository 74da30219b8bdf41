//! The lines of a text, the numbers that stand in it, and what it takes to say at which line a text leaves a form.
//! Nothing here knows of any one form.
#![tactic(auto)]

mod line;
mod number;

pub use line::first_line;
pub use number::number_of;
