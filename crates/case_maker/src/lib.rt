//! Made cases: from a case number and a size, a C program and a table of costs for its blocks.
//!
//! `make` is the one call. The program is one function of two numbers `a` and `b`: a head, as many segments as the size
//! says, each an `if`, an `if` with `else` or a `for`, and a `return`. What stands in it, and what each block costs, is
//! drawn from a sequence of states that begins with the case number, so the same numbers make the same two texts.
//! A case of the greatest size has at most 64 segments and 258 blocks.
#![tactic(auto)]

mod draws;
mod law;
mod lines;
mod making;
mod no_memory;
mod program;
mod segment;
mod table;

pub use law::worked_states;
pub use making::make;
pub use no_memory::NoMemory;
