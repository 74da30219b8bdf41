//! How expressions go on, and how tightly operators bind (C11 6.5).

ghost use Rattle.std.specs.Prelude.{◌≡◌};
ghost use Rattle.c_tree.specs.Grammar.SpelledExpressions as grammar;
ghost use Rattle.parse_laws.specs.Going as reading;

use c_tree::{BinOp, Symbol, UnOp};
use parse_laws::Next;

/// How an expression goes on with the symbol.
pub fn next_of(symbol: Option<Symbol>) -> Next
    ensures { result ≡ reading.next_for symbol }
{
    match symbol {
        Some(Symbol::Question) => Next::Ask,
        Some(Symbol::Operator(operator)) => Next::By(operator),
        _ => Next::Stop,
    }
}

/// Whether an expression of the level `least` goes on so.
pub fn binds(least: u8, next: Next) -> bool
    ensures { result ≡ reading.binds least next }
{
    match next {
        Next::Stop => false,
        Next::Ask => least == 0,
        Next::By(operator) => least <= level(operator),
    }
}

/// The unary operator that the symbol is.
pub fn unary_operator(symbol: Symbol) -> Option<UnOp>
    ensures { result ≡ grammar.unary_operator symbol }
{
    match symbol {
        Symbol::Operator(BinOp::Add) => Some(UnOp::Plus),
        Symbol::Operator(BinOp::Sub) => Some(UnOp::Minus),
        Symbol::Tilde => Some(UnOp::Flip),
        Symbol::Exclamation => Some(UnOp::Not),
        _ => None,
    }
}

/// How tightly a binary operator binds.
pub fn level(operator: BinOp) -> u8
    ensures { result ≡ grammar.level operator }
{
    match operator {
        BinOp::Either => 1,
        BinOp::Both => 2,
        BinOp::Or => 3,
        BinOp::Xor => 4,
        BinOp::And => 5,
        BinOp::Eq | BinOp::Ne => 6,
        BinOp::Lt | BinOp::Gt | BinOp::Le | BinOp::Ge => 7,
        BinOp::Shl | BinOp::Shr => 8,
        BinOp::Add | BinOp::Sub => 9,
        BinOp::Mul | BinOp::Div | BinOp::Rem => 10,
    }
}
