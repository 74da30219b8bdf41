//! What stands for comparisons.

ghost use Rattle.std.specs.Prelude.{◌<◌, length, IfSome};
ghost use Rattle.bv_term.specs.declared.op.Op.TheVariants as op;
ghost use Rattle.bv_fold.specs.Standing.{IsEquality, IsNegatedTruth, StandsFor};

use crate::known::{is_constant, is_truth, negated_by};
use crate::stand::Stand;
use bv_term::{Op, Terms};

/// A term equals itself. A truth value equals 1 where it holds, and equals 0 where what it negates holds.
pub(crate) fn equal(terms: &Terms, a: u32, b: u32) -> Stand
    requires left { a < length terms.now.ops }
    requires right { b < length terms.now.ops }
    ensures { StandsFor terms.now (op.Eq a b) result }
{
    if a == b {
        Stand::Constant(1)
    } else if let Some(x) = held_by(terms, a, b) {
        Stand::Term(x)
    } else if let Some(x) = held_by(terms, b, a) {
        Stand::Term(x)
    } else {
        Stand::Operator(Op::Eq(a, b))
    }
}

// A truth value that holds where the truth value a equals the constant b.
fn held_by(terms: &Terms, a: u32, b: u32) -> Option<u32>
    requires left { a < length terms.now.ops }
    requires right { b < length terms.now.ops }
    ensures { IfSome result (λ x. IsEquality terms.now a b x) }
{
    if !is_truth(terms, a) {
        None
    } else if is_constant(terms, b, 1) {
        Some(a)
    } else if is_constant(terms, b, 0) {
        truth_negated_by(terms, a)
    } else {
        None
    }
}

// A truth value that the term negates.
fn truth_negated_by(terms: &Terms, term: u32) -> Option<u32>
    requires { term < length terms.now.ops }
    ensures { IfSome result (λ x. IsNegatedTruth terms.now term x) }
{
    let x = negated_by(terms, term)?;
    if is_truth(terms, x) { Some(x) } else { None }
}

/// Nothing is less than itself or than 0, and the greatest word is less than nothing.
pub(crate) fn less(terms: &Terms, a: u32, b: u32) -> Stand
    requires left { a < length terms.now.ops }
    requires right { b < length terms.now.ops }
    ensures { StandsFor terms.now (op.LtU a b) result }
{
    if a == b {
        Stand::Constant(0)
    } else if is_constant(terms, b, 0) {
        Stand::Constant(0)
    } else if is_constant(terms, a, u32::MAX) {
        Stand::Constant(0)
    } else {
        Stand::Operator(Op::LtU(a, b))
    }
}

/// Nothing is less than itself or than the least number, and the greatest is less than nothing.
pub(crate) fn less_signed(terms: &Terms, a: u32, b: u32) -> Stand
    requires left { a < length terms.now.ops }
    requires right { b < length terms.now.ops }
    ensures { StandsFor terms.now (op.LtS a b) result }
{
    if a == b {
        Stand::Constant(0)
    } else if is_constant(terms, b, 0x8000_0000) {
        Stand::Constant(0)
    } else if is_constant(terms, a, 0x7fff_ffff) {
        Stand::Constant(0)
    } else {
        Stand::Operator(Op::LtS(a, b))
    }
}
