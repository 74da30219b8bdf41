//! The words of the command line: `words` reads them as a `Job`. What stands in them is found by `clap`; a mode that is
//! not built is refused.
#![tactic(auto)]

mod command;
mod found;
mod job;
mod name;
mod reading;

pub use job::{Job, Mode};
pub use name::Name;
pub use reading::{WordFault, one_job, words};
