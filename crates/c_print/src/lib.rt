//! The printed text of a program: one declaration or statement a line, in the order of the program, the globals first.
#![tactic(auto)]

mod exprs;
mod printing;
mod simple;
mod stmts;

pub use printing::print;
