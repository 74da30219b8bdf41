//! Runs of a program.
#![tactic(auto)]

mod calls;
mod loops;
mod machine;
mod run_end;
mod runs;
mod statements;

pub use run_end::RunEnd;
pub use runs::run;
