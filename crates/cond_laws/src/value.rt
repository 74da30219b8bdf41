//! Terms that stand for values.

use c_tree::Ty;
use sqlite_items::Items;

/// A term that stands for a value: the type in which its word is read, and the terms that are all nonzero exactly
/// where the value is defined.
#[derive(Debug, Drop)]
pub struct Judged {
    pub ty: Ty,
    pub term: u32,
    pub conditions: Items<u32>,
}

/// The terms of a list of expressions, and those that are all nonzero exactly where each of them is defined.
#[derive(Debug, Drop)]
pub struct Listed {
    pub terms: Items<u32>,
    pub conditions: Items<u32>,
}

/// A value that was returned: the type in which its word is read, and its term.
#[derive(Clone, Copy, Debug)]
pub struct Returned {
    pub ty: Ty,
    pub term: u32,
}
