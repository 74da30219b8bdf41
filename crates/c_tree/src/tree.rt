//! Expressions and statements of a program, whose names are numbers.

use sqlite_items::{Boxed, Items};

/// A type (C11 6.2.5). An `int` is -2^31 to 2^31 - 1, an `unsigned` 0 to 2^32 - 1.
#[derive(Clone, Copy, Debug, PartialEq, Eq)]
pub enum Ty {
    Int,
    Unsigned,
}

/// A unary operator (C11 6.5.3.3): `+`, `-`, `~` and `!`.
#[derive(Clone, Copy, Debug, PartialEq, Eq)]
pub enum UnOp {
    Plus,
    Minus,
    Flip,
    Not,
}

/// A binary operator (C11 6.5.5 to 6.5.14): `*`, `/`, `%`, `+`, `-`, `<<`, `>>`, `<`, `>`, `<=`, `>=`, `==`, `!=`,
/// `&`, `^`, `|`, and `&&` (`Both`) and `||` (`Either`).
#[derive(Clone, Copy, Debug, PartialEq, Eq)]
pub enum BinOp {
    Mul,
    Div,
    Rem,
    Add,
    Sub,
    Shl,
    Shr,
    Lt,
    Gt,
    Le,
    Ge,
    Eq,
    Ne,
    And,
    Xor,
    Or,
    Both,
    Either,
}

/// A variable: the number of a local of the function, or of a global of the program.
#[derive(Clone, Copy, Debug, PartialEq, Eq)]
pub enum Var {
    Local(u32),
    Global(u32),
}

/// An expression (C11 6.5). Parentheses are not kept.
#[derive(Drop)]
pub enum Expr {
    /// A number of a type (6.4.4.1), by its 32 bits; in a checked program one of an `int` is at most 2^31 - 1.
    Num(Ty, u32),
    /// The value of a scalar.
    Name(Var),
    /// `a[e]`.
    Elem(Var, Boxed<Expr>),
    /// A unary operator and its operand.
    Un(UnOp, Boxed<Expr>),
    /// `(int)e` or `(unsigned)e` (6.5.4).
    Cast(Ty, Boxed<Expr>),
    /// A binary operator, its left operand and its right one.
    Bin(BinOp, Boxed<Expr>, Boxed<Expr>),
    /// `c ? a : b` (6.5.15).
    Cond(Boxed<Expr>, Boxed<Expr>, Boxed<Expr>),
}

/// What is assigned to (C11 6.5.16).
#[derive(Drop)]
pub enum Place {
    /// A scalar.
    Scalar(Var),
    /// `a[e]`.
    Elem(Var, Expr),
}

/// Where the result of a call goes.
#[derive(Clone, Copy, Debug, PartialEq, Eq)]
pub enum Target {
    /// Nowhere: `f(..);`.
    Nothing,
    /// To a scalar: `x = f(..);`.
    Assign(Var),
    /// To a local that the call initialises, by its number: `int x = f(..);`.
    Declare(u32),
}

/// A statement (C11 6.8), or a declaration in a list (6.7). The number of a loop is its bound, how often its body may
/// be entered within one entry of the loop: from 1 to 1,048,576 in a checked program.
#[derive(Drop)]
pub enum Stmt {
    /// `;`.
    Empty,
    /// The declaration of a scalar, by the local's number, and its initialiser.
    Scalar(u32, Option<Expr>),
    /// The declaration of an array, by the local's number, and its list.
    Array(u32, Items<Expr>),
    /// `p = e;`, or `p op= e;` with an operator.
    Assign(Place, Option<BinOp>, Expr),
    /// A call: where its result goes, the number of the function, and the arguments.
    Call(Target, u32, Items<Expr>),
    /// `break;`.
    Break,
    /// `continue;`.
    Continue,
    /// `return;` or `return e;`.
    Return(Option<Expr>),
    /// `if (e) .. else ..`; without an `else` the second list is empty.
    If(Expr, Items<Stmt>, Items<Stmt>),
    /// `while (e) ..`.
    While(u32, Expr, Items<Stmt>),
    /// `do .. while (e);`.
    Do(u32, Items<Stmt>, Expr),
    /// `for (i; e; s) ..`: the initialiser, the condition (1 where there is none), the step and the body.
    For(u32, Option<Boxed<Stmt>>, Expr, Option<Boxed<Stmt>>, Items<Stmt>),
    /// A list within a list: `{ .. }`.
    Group(Items<Stmt>),
}
