//! The terms of a list of edges.

use bv_term::Terms;
use sqlite_items::Items;

/// A store of terms, which declares the inputs of a program in order, and the numbers of the terms that are all
/// nonzero exactly where an input drives a list of edges.
#[derive(Drop)]
pub struct PathCond {
    pub terms: Terms,
    pub conditions: Items<u32>,
}
