//! From the text of a C program to its tree.
//!
//! `parse` reads the tree that the tokens of a text spell; the grammar stands in `c_tree`, apart from the reader.
#![tactic(auto)]

mod decl;
mod expr;
mod fault;
mod parsing;
mod reader;
mod simple;
mod stmt;
mod unit;

pub use fault::ParseFault;
pub use parsing::{one_tree, ordered_tokens_are_within, parse};
