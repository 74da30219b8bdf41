//! What stands for sums, differences, opposites and turned words.

ghost use Rattle.std.specs.Prelude.{◌<◌, length};
ghost use Rattle.bv_term.specs.declared.op.Op.TheVariants as op;
ghost use Rattle.bv_fold.specs.Standing.{StandsFor};

use crate::known::{is_constant, opposite_by, turned_by};
use crate::stand::Stand;
use bv_term::{Op, Terms};

/// The sum with 0 is the other term.
pub(crate) fn sum(terms: &Terms, a: u32, b: u32) -> Stand
    requires left { a < length terms.now.ops }
    requires right { b < length terms.now.ops }
    ensures { StandsFor terms.now (op.Add a b) result }
{
    if is_constant(terms, b, 0) {
        Stand::Term(a)
    } else if is_constant(terms, a, 0) {
        Stand::Term(b)
    } else {
        Stand::Operator(Op::Add(a, b))
    }
}

/// A term less itself is 0, and less 0 it is the term.
pub(crate) fn difference(terms: &Terms, a: u32, b: u32) -> Stand
    requires left { a < length terms.now.ops }
    requires right { b < length terms.now.ops }
    ensures { StandsFor terms.now (op.Sub a b) result }
{
    if a == b {
        Stand::Constant(0)
    } else if is_constant(terms, b, 0) {
        Stand::Term(a)
    } else {
        Stand::Operator(Op::Sub(a, b))
    }
}

/// The opposite of an opposite is the term.
pub(crate) fn opposite(terms: &Terms, a: u32) -> Stand
    requires { a < length terms.now.ops }
    ensures { StandsFor terms.now (op.Neg a) result }
{
    match opposite_by(terms, a) {
        Some(x) => Stand::Term(x),
        None => Stand::Operator(Op::Neg(a)),
    }
}

/// A word of which all bits are turned twice is the word.
pub(crate) fn turned(terms: &Terms, a: u32) -> Stand
    requires { a < length terms.now.ops }
    ensures { StandsFor terms.now (op.Not a) result }
{
    match turned_by(terms, a) {
        Some(x) => Stand::Term(x),
        None => Stand::Operator(Op::Not(a)),
    }
}
