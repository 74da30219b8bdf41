//! The tree of a text before its names are checked. A place is the offset of a token's first byte in the text.

use crate::name::Name;
use crate::tree::{BinOp, Ty, UnOp};
use sqlite_items::{Boxed, Items};

/// A name and its place. The name is the bytes of its token.
#[derive(Drop)]
pub struct Spot {
    pub name: Name,
    pub at: u32,
}

/// A loop bound, from 0 to 9,999,999,999, and the place of its `#`.
#[derive(Clone, Copy, Debug, PartialEq, Eq)]
pub struct RawBound {
    pub at: u32,
    pub value: u64,
}

/// A parameter of a function (C11 6.9.1).
#[derive(Drop)]
pub struct RawParam {
    pub ty: Ty,
    pub spot: Spot,
}

/// An expression (C11 6.5). The first number of `Num`, `Un`, `Cast` and `Paren` is the place of the first token.
#[derive(Drop)]
pub enum RawExpr {
    /// A number of a type (6.4.4.1), by its 32 bits.
    Num(u32, Ty, u32),
    /// A name.
    Name(Spot),
    /// `a[e]`.
    Elem(Spot, Boxed<RawExpr>),
    /// A unary operator and its operand.
    Un(u32, UnOp, Boxed<RawExpr>),
    /// `(int)e` or `(unsigned)e` (6.5.4).
    Cast(u32, Ty, Boxed<RawExpr>),
    /// A binary operator, its left operand and its right one.
    Bin(BinOp, Boxed<RawExpr>, Boxed<RawExpr>),
    /// `c ? a : b` (6.5.15).
    Cond(Boxed<RawExpr>, Boxed<RawExpr>, Boxed<RawExpr>),
    /// `(e)`.
    Paren(u32, Boxed<RawExpr>),
}

/// What is assigned to (C11 6.5.16).
#[derive(Drop)]
pub enum RawPlace {
    /// A name.
    Scalar(Spot),
    /// `a[e]`.
    Elem(Spot, RawExpr),
}

/// Where the result of a call goes. The bool of `Declare` tells `const`.
#[derive(Drop)]
pub enum RawTarget {
    /// Nowhere: `f(..);`.
    Nothing,
    /// To a name: `x = f(..);`.
    Assign(Spot),
    /// To the name that is declared: `int x = f(..);`.
    Declare(bool, Ty, Spot),
}

/// What a declarator makes (C11 6.7.6 and 6.7.9).
#[derive(Drop)]
pub enum RawShape {
    /// A scalar and its initialiser.
    Scalar(Option<RawExpr>),
    /// An array, its length and its list.
    Array(Option<RawExpr>, Option<Items<RawExpr>>),
}

/// A statement (C11 6.8), or a declarator of a declaration in a list (6.7). The number of `Break`, `Continue` and
/// `Return` is the place of the word, and of a loop that of its `while`, `do` or `for`, not of its bound. The bool of
/// `Declare` tells `const`. A body that is one statement is a list of it, and one in braces is their list.
#[derive(Drop)]
pub enum RawStmt {
    /// `;`.
    Empty,
    /// The declaration of a name.
    Declare(bool, Ty, Spot, RawShape),
    /// `p = e;`, or `p op= e;` with an operator. `p++;` and `++p;` are `p += 1;`, whose 1 has the place of the `++`;
    /// so with `--`.
    Assign(RawPlace, Option<BinOp>, RawExpr),
    /// A call: where its result goes, the name that is called, and the arguments.
    Call(RawTarget, Spot, Items<RawExpr>),
    /// `break;`.
    Break(u32),
    /// `continue;`.
    Continue(u32),
    /// `return;` or `return e;`.
    Return(u32, Option<RawExpr>),
    /// `if (e) .. else ..`; without an `else` the second list is empty.
    If(RawExpr, Items<RawStmt>, Items<RawStmt>),
    /// `while (e) ..`, after its bound.
    While(u32, Option<RawBound>, RawExpr, Items<RawStmt>),
    /// `do .. while (e);`, after its bound.
    Do(u32, Option<RawBound>, Items<RawStmt>, RawExpr),
    /// `for (i; e; s) ..`, after its bound: the initialiser, the condition, the step and the body. Where there is no
    /// condition it is 1, at the place of the `;` after it.
    For(
        u32,
        Option<RawBound>,
        Option<Boxed<RawStmt>>,
        RawExpr,
        Option<Boxed<RawStmt>>,
        Items<RawStmt>,
    ),
    /// A list within a list: `{ .. }`.
    Group(Items<RawStmt>),
}

/// A function (C11 6.9.1). `result` is None for `void`; `kept` tells `static`.
#[derive(Drop)]
pub struct RawFunc {
    pub kept: bool,
    pub result: Option<Ty>,
    pub spot: Spot,
    pub params: Items<RawParam>,
    pub body: Items<RawStmt>,
}

/// A declarator or a function at file scope (C11 6.9). The bool of `Outer` and the second of `Global` tell `const`,
/// the first of `Global` tells `static`.
#[derive(Drop)]
pub enum RawTop {
    /// `extern` and a name, with its length where it is an array.
    Outer(bool, Ty, Spot, Option<RawExpr>),
    /// A variable without `extern`.
    Global(bool, bool, Ty, Spot, RawShape),
    /// A function.
    Func(RawFunc),
}

/// A text's tree (C11 6.9): its declarators and functions in order. `end` is the length of the text.
#[derive(Drop)]
pub struct Unit {
    pub tops: Items<RawTop>,
    pub end: u32,
}
