//! What a search comes to.

use c_tree::Input;

/// What a search for an input that drives a list of edges comes to.
#[derive(Drop)]
pub enum Found {
    /// This input fits the program and drives the list.
    Driven(Input),
    /// No input drives the list.
    Refuted,
    /// The search learned as many clauses as its limit allows, and has no answer.
    GaveUp,
}
