//! What words ask for.

use crate::Name;

/// What is to be done.
#[derive(Clone, Copy, Debug, PartialEq, Eq)]
pub enum Mode {
    /// Find the dearest run.
    Squeeze,
    /// Bound the program of the file.
    Bound,
    /// Count its block copies, and bound it.
    Ipet,
    /// List its blocks with their costs.
    Blocks,
    /// Run it on an input.
    Run,
    /// Print it.
    Print,
    /// Write a made case.
    Make,
    /// Find the dearest run of a made case. It is not built.
    Workout,
}

/// A job: its mode, and what the mode works on.
#[derive(Debug, Drop)]
pub struct Job {
    pub mode: Mode,
    /// The file of the program, which `make` and `workout` have not.
    pub file: Option<Name>,
    /// The file of the table of costs. Without one each block costs 1.
    pub costs: Option<Name>,
    /// The entry function.
    pub entry: Name,
    /// From 1 to 16.
    pub workers: u32,
    /// The most turns, from 1 to 16,384.
    pub turns: u32,
    /// The most conflicts of a refutation, from 1 to 100,000.
    pub conflicts: u32,
    /// The text of the input of a run.
    pub input: Name,
    /// The number of a made case.
    pub case: u16,
    /// Its size, from 1 to 64.
    pub size: u32,
    /// Whether what is found is written as it is found.
    pub watch: bool,
    /// Whether the table of a made case is written in place of its program.
    pub table: bool,
}
