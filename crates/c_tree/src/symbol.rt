//! What a token is to the grammar.

use crate::tree::BinOp;

/// What a token is to the grammar (C11 6.4): a keyword or a punctuator that it has, a name, an integer constant, a loop
/// bound, or what it does not have. A `+` or `-` is an `Operator`, also where it stands before its operand.
#[derive(Clone, Copy, Debug, PartialEq, Eq)]
pub enum Symbol {
    Extern,
    Static,
    Const,
    Int,
    Signed,
    Unsigned,
    Void,
    If,
    Else,
    While,
    Do,
    For,
    Break,
    Continue,
    Return,
    LeftParen,
    RightParen,
    LeftBracket,
    RightBracket,
    LeftBrace,
    RightBrace,
    Semicolon,
    Comma,
    Question,
    Colon,
    /// `~`.
    Tilde,
    /// `!`.
    Exclamation,
    /// `=`.
    Assign,
    /// `op=` of this operator.
    Compound(BinOp),
    /// `++`, by the operator `+`, and `--`, by `-`.
    Step(BinOp),
    /// A binary operator.
    Operator(BinOp),
    Name,
    Number,
    Bound,
    Other,
}
