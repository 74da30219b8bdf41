//! Where parentheses stand: how tightly operators and expressions hold together (C11 6.5).

ghost use Rattle.std.specs.Prelude.{◌≡◌, ◌≤◌};
ghost use Rattle.c_tree.specs.Grammar.SpelledExpressions.{level};
ghost use Rattle.print_laws.specs.PrintedExpressions.{strength};

use c_tree::{BinOp, Expr};

/// The level of a binary operator in the grammar (C11 6.5.5 to 6.5.14): 1 of `||` to 10 of `*`.
pub fn level(op: BinOp) -> u32
    ensures value { result ≡ level op }
    ensures most { result ≤ 10 }
{
    match op {
        BinOp::Either => 1,
        BinOp::Both => 2,
        BinOp::Or => 3,
        BinOp::Xor => 4,
        BinOp::And => 5,
        BinOp::Eq => 6,
        BinOp::Ne => 6,
        BinOp::Lt => 7,
        BinOp::Gt => 7,
        BinOp::Le => 7,
        BinOp::Ge => 7,
        BinOp::Shl => 8,
        BinOp::Shr => 8,
        BinOp::Add => 9,
        BinOp::Sub => 9,
        BinOp::Mul => 10,
        BinOp::Div => 10,
        BinOp::Rem => 10,
    }
}

/// How tightly an expression holds together: as the levels of the grammar, but a cast more tightly than a unary
/// operator, so that no unary operator stands right before another.
pub fn strength(expr: &Expr) -> u32
    ensures { result ≡ strength expr.now }
{
    match expr {
        Expr::Cond(_, _, _) => 0,
        Expr::Bin(op, _, _) => level(*op),
        Expr::Un(_, _) => 11,
        Expr::Cast(_, _) => 12,
        Expr::Elem(_, _) => 13,
        Expr::Name(_) => 13,
        Expr::Num(_, _) => 13,
    }
}
