//! What stands for products, quotients and remainders.

ghost use Rattle.std.specs.Prelude.{◌<◌, length};
ghost use Rattle.bv_term.specs.declared.op.Op.TheVariants as op;
ghost use Rattle.bv_fold.specs.Standing.{StandsFor};

use crate::known::{is_constant, mask_at, power_at};
use crate::stand::Stand;
use bv_term::{Op, Terms};

/// A product with 0 is 0, with 1 the other term, and with a power of two a shift.
pub(crate) fn product(terms: &Terms, a: u32, b: u32) -> Stand
    requires left { a < length terms.now.ops }
    requires right { b < length terms.now.ops }
    ensures { StandsFor terms.now (op.Mul a b) result }
{
    if is_constant(terms, a, 0) {
        Stand::Constant(0)
    } else if is_constant(terms, b, 0) {
        Stand::Constant(0)
    } else if is_constant(terms, a, 1) {
        Stand::Term(b)
    } else if is_constant(terms, b, 1) {
        Stand::Term(a)
    } else if let Some(k) = power_at(terms, a) {
        Stand::Raised(b, k)
    } else if let Some(k) = power_at(terms, b) {
        Stand::Raised(a, k)
    } else {
        Stand::Operator(Op::Mul(a, b))
    }
}

/// A quotient of 0 or by 0 is 0, by 1 the term, and by a power of two a shift.
pub(crate) fn quotient(terms: &Terms, a: u32, b: u32) -> Stand
    requires left { a < length terms.now.ops }
    requires right { b < length terms.now.ops }
    ensures { StandsFor terms.now (op.DivU a b) result }
{
    if is_constant(terms, a, 0) {
        Stand::Constant(0)
    } else if is_constant(terms, b, 0) {
        Stand::Constant(0)
    } else if is_constant(terms, b, 1) {
        Stand::Term(a)
    } else if let Some(k) = power_at(terms, b) {
        Stand::Lowered(a, k)
    } else {
        Stand::Operator(Op::DivU(a, b))
    }
}

/// A remainder of 0, of a term by itself or by 1 is 0, by 0 the term, and by a power of two its low bits.
pub(crate) fn remainder(terms: &Terms, a: u32, b: u32) -> Stand
    requires left { a < length terms.now.ops }
    requires right { b < length terms.now.ops }
    ensures { StandsFor terms.now (op.RemU a b) result }
{
    if is_constant(terms, a, 0) {
        Stand::Constant(0)
    } else if a == b {
        Stand::Constant(0)
    } else if is_constant(terms, b, 0) {
        Stand::Term(a)
    } else if is_constant(terms, b, 1) {
        Stand::Constant(0)
    } else if let Some(mask) = mask_at(terms, b) {
        Stand::Masked(a, mask)
    } else {
        Stand::Operator(Op::RemU(a, b))
    }
}

/// A signed quotient of 0 or by 0 is 0, by 1 the term, and by -1 its opposite.
pub(crate) fn signed_quotient(terms: &Terms, a: u32, b: u32) -> Stand
    requires left { a < length terms.now.ops }
    requires right { b < length terms.now.ops }
    ensures { StandsFor terms.now (op.DivS a b) result }
{
    if is_constant(terms, a, 0) {
        Stand::Constant(0)
    } else if is_constant(terms, b, 0) {
        Stand::Constant(0)
    } else if is_constant(terms, b, 1) {
        Stand::Term(a)
    } else if is_constant(terms, b, u32::MAX) {
        Stand::Operator(Op::Neg(a))
    } else {
        Stand::Operator(Op::DivS(a, b))
    }
}

/// A signed remainder of 0, of a term by itself, by 1 or by -1 is 0, and by 0 the term.
pub(crate) fn signed_remainder(terms: &Terms, a: u32, b: u32) -> Stand
    requires left { a < length terms.now.ops }
    requires right { b < length terms.now.ops }
    ensures { StandsFor terms.now (op.RemS a b) result }
{
    if is_constant(terms, a, 0) {
        Stand::Constant(0)
    } else if a == b {
        Stand::Constant(0)
    } else if is_constant(terms, b, 0) {
        Stand::Term(a)
    } else if is_constant(terms, b, 1) {
        Stand::Constant(0)
    } else if is_constant(terms, b, u32::MAX) {
        Stand::Constant(0)
    } else {
        Stand::Operator(Op::RemS(a, b))
    }
}
