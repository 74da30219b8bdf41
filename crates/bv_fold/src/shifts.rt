//! What stands for shifts.

ghost use Rattle.std.specs.Prelude.{◌<◌, length};
ghost use Rattle.bv_term.specs.declared.op.Op.TheVariants as op;
ghost use Rattle.bv_fold.specs.Standing.{StandsFor};

use crate::known::{is_constant, is_no_shift};
use crate::stand::Stand;
use bv_term::{Op, Terms};

/// A shift of 0 is 0, and one by 0 modulo 32 the term.
pub(crate) fn shifted_up(terms: &Terms, a: u32, b: u32) -> Stand
    requires left { a < length terms.now.ops }
    requires right { b < length terms.now.ops }
    ensures { StandsFor terms.now (op.Shl a b) result }
{
    if is_constant(terms, a, 0) {
        Stand::Constant(0)
    } else if is_no_shift(terms, b) {
        Stand::Term(a)
    } else {
        Stand::Operator(Op::Shl(a, b))
    }
}

/// A shift of 0 is 0, and one by 0 modulo 32 the term.
pub(crate) fn shifted_down(terms: &Terms, a: u32, b: u32) -> Stand
    requires left { a < length terms.now.ops }
    requires right { b < length terms.now.ops }
    ensures { StandsFor terms.now (op.ShrU a b) result }
{
    if is_constant(terms, a, 0) {
        Stand::Constant(0)
    } else if is_no_shift(terms, b) {
        Stand::Term(a)
    } else {
        Stand::Operator(Op::ShrU(a, b))
    }
}

/// A signed shift of 0 is 0, of -1 it is -1, and one by 0 modulo 32 the term.
pub(crate) fn shifted_signed(terms: &Terms, a: u32, b: u32) -> Stand
    requires left { a < length terms.now.ops }
    requires right { b < length terms.now.ops }
    ensures { StandsFor terms.now (op.ShrS a b) result }
{
    if is_constant(terms, a, 0) {
        Stand::Constant(0)
    } else if is_constant(terms, a, u32::MAX) {
        Stand::Constant(u32::MAX)
    } else if is_no_shift(terms, b) {
        Stand::Term(a)
    } else {
        Stand::Operator(Op::ShrS(a, b))
    }
}
