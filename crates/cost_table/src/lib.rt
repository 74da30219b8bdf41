//! Tables of costs: what a TOML text gives to the blocks of a program, and its first fault where it gives nothing.
//!
//! `costs` reads the text with `toml` and looks the name of each block up in the table `cost`; `plain_costs` gives 1 to
//! each block.
#![tactic(auto)]

mod blocks;
mod fault;
mod first;
mod known;
mod law;
mod rows;
mod table;

pub use fault::CostFault;
pub use law::{costs_are_given, first_in_byte_order, worked_tables};
pub use table::{costs, plain_costs};
