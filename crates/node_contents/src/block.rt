//! What blocks and nodes do, as it is lent.

use c_tree::{BlockName, Expr, Local, Stmt, Target, Ty};

/// What a block does.
#[derive(Clone, Copy)]
pub(crate) enum Block<'p> {
    /// A run of simple statements, at least one.
    Run(&'p [Stmt]),
    /// A condition.
    Ask(&'p Expr),
    /// `break` or `continue`.
    Jump,
    /// `return`, with its value.
    Give(&'p Option<Expr>),
    /// A call: where its result goes, the number of the function, and the arguments.
    Call(Target, u32, &'p [Expr]),
}

/// What a node does.
#[derive(Clone, Copy)]
pub enum Content<'p> {
    /// Entry.
    Entry,
    /// Exit.
    Exit,
    /// A run of simple statements, at least one (C11 6.7, 6.8.3).
    Simple(&'p [Stmt]),
    /// A condition (6.8.4, 6.8.5).
    Test(&'p Expr),
    /// `break` or `continue` (6.8.6).
    Jump,
    /// `return`, with its value (6.8.6.4).
    Give(&'p Option<Expr>),
    /// A call (6.5.2.2): where its result goes, the callee's locals, and the arguments.
    Enter(Target, &'p [Local], &'p [Expr]),
    /// A call of a function that is not above, and its landing. No checked program has one.
    Missing,
    /// The landing of a call: where the result goes, its type, and the call's block.
    Land(Target, Option<Ty>, BlockName),
}
