//! How an expression goes on.

use c_tree::BinOp;

/// How an expression goes on with the next token: not at all, as the condition of a `?`, or as the left operand of a
/// binary operator.
#[derive(Clone, Copy, Debug, PartialEq, Eq)]
pub enum Next {
    /// It ends here.
    Stop,
    /// It is the condition of a `?`.
    Ask,
    /// It is the left operand of this operator.
    By(BinOp),
}
