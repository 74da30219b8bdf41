//! The head of a `for`.

use c_tree::{RawExpr, RawStmt};
use sqlite_items::Boxed;

/// What stands in the parentheses of a `for` (C11 6.8.5.3). A missing condition is the number 1.
#[derive(Drop)]
pub struct ForHead {
    pub first: Option<Boxed<RawStmt>>,
    pub test: Boxed<RawExpr>,
    pub last: Option<Boxed<RawStmt>>,
}
