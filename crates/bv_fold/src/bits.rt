//! What stands for operators on the bits of words.

ghost use Rattle.std.specs.Prelude.{◌<◌, length};
ghost use Rattle.bv_term.specs.declared.op.Op.TheVariants as op;
ghost use Rattle.bv_fold.specs.Standing.{StandsFor};

use crate::known::is_constant;
use crate::stand::Stand;
use bv_term::{Op, Terms};

/// With itself a term is as it is, with 0 it is 0, and with all bits the other.
pub(crate) fn both(terms: &Terms, a: u32, b: u32) -> Stand
    requires left { a < length terms.now.ops }
    requires right { b < length terms.now.ops }
    ensures { StandsFor terms.now (op.And a b) result }
{
    if a == b {
        Stand::Term(a)
    } else if is_constant(terms, a, 0) {
        Stand::Constant(0)
    } else if is_constant(terms, b, 0) {
        Stand::Constant(0)
    } else if is_constant(terms, a, u32::MAX) {
        Stand::Term(b)
    } else if is_constant(terms, b, u32::MAX) {
        Stand::Term(a)
    } else {
        Stand::Operator(Op::And(a, b))
    }
}

/// With itself a term is as it is, with 0 it is the other, and with all bits all bits.
pub(crate) fn either(terms: &Terms, a: u32, b: u32) -> Stand
    requires left { a < length terms.now.ops }
    requires right { b < length terms.now.ops }
    ensures { StandsFor terms.now (op.Or a b) result }
{
    if a == b {
        Stand::Term(a)
    } else if is_constant(terms, a, 0) {
        Stand::Term(b)
    } else if is_constant(terms, b, 0) {
        Stand::Term(a)
    } else if is_constant(terms, a, u32::MAX) {
        Stand::Constant(u32::MAX)
    } else if is_constant(terms, b, u32::MAX) {
        Stand::Constant(u32::MAX)
    } else {
        Stand::Operator(Op::Or(a, b))
    }
}

/// With itself a term is 0, with 0 the other, and with all bits the other turned.
pub(crate) fn differing(terms: &Terms, a: u32, b: u32) -> Stand
    requires left { a < length terms.now.ops }
    requires right { b < length terms.now.ops }
    ensures { StandsFor terms.now (op.Xor a b) result }
{
    if a == b {
        Stand::Constant(0)
    } else if is_constant(terms, a, 0) {
        Stand::Term(b)
    } else if is_constant(terms, b, 0) {
        Stand::Term(a)
    } else if is_constant(terms, a, u32::MAX) {
        Stand::Operator(Op::Not(b))
    } else if is_constant(terms, b, u32::MAX) {
        Stand::Operator(Op::Not(a))
    } else {
        Stand::Operator(Op::Xor(a, b))
    }
}
