//! The types of results of operators (C11 6.5).

ghost use Rattle.std.specs.Prelude.{◌≡◌};
ghost use Rattle.c_tree.specs.Meaning.Expressions as spec;

use crate::values::common;
use c_tree::{BinOp, Ty, UnOp};

/// The type of a unary operator's result, on an operand of this type (C11 6.5.3.3): that of the operand, and of `!`
/// `int`.
pub fn un_ty(op: UnOp, ty: Ty) -> Ty
    ensures { result ≡ spec.un_ty op ty }
{
    match op {
        UnOp::Plus | UnOp::Minus | UnOp::Flip => ty,
        UnOp::Not => Ty::Int,
    }
}

/// The type of a binary operator's result, on operands of these types (C11 6.5.5 to 6.5.14): their common type; of a
/// shift that of the left one; of relations, `&&` and `||` `int`.
pub fn bin_ty(op: BinOp, a: Ty, b: Ty) -> Ty
    ensures { result ≡ spec.bin_ty op a b }
{
    match op {
        BinOp::Mul
        | BinOp::Div
        | BinOp::Rem
        | BinOp::Add
        | BinOp::Sub
        | BinOp::And
        | BinOp::Xor
        | BinOp::Or => common(a, b),
        BinOp::Shl | BinOp::Shr => a,
        BinOp::Lt
        | BinOp::Gt
        | BinOp::Le
        | BinOp::Ge
        | BinOp::Eq
        | BinOp::Ne
        | BinOp::Both
        | BinOp::Either => Ty::Int,
    }
}
