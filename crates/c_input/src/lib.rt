//! Inputs of a program: which fit it, what its run starts with on one, and their texts.
#![tactic(auto)]

mod fitting;
mod inputs;
mod law;
mod leads;
mod reading;
mod start;
mod writing;

pub use fitting::fits;
pub use law::one_input;
pub use reading::read_input;
pub use start::{Start, start_of};
pub use writing::input_text;
