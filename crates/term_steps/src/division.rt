//! The terms of quotients, remainders and shifts (C11 6.5.5, 6.5.7).

ghost use Rattle.std.specs.Prelude.{◌≡◌, ◌<◌, length, IfOk};
ghost use Rattle.cond_laws.specs.TermOperators as spec;
ghost use Rattle.cond_laws.specs.Fits.{Below, FitJudged};
ghost use Rattle.term_steps.specs.Gives.{Gives};
ghost use Rattle.term_steps.specs.Parts.{no_overflow, below_width};

use crate::putting::{given_one, given_two, put};
use bv_term::{Op, Terms};
use c_tree::{NoMemory, Ty};
use cond_laws::Judged;
use std::alloc::Global;

// Nonzero where a is not -2^31 or b is not -1.
fn no_overflow(terms: &mut Terms, a: u32, b: u32) -> Result<u32, NoMemory>
    requires a_in { a < length terms.old.ops }
    requires b_in { b < length terms.old.ops }
    ensures { IfOk result (λ t. Gives Below (no_overflow a b) terms.old terms.new t) }
{
    let least = put(terms, Op::Const(2_147_483_648))?;
    let other = put(terms, Op::Xor(a, least))?;
    let turned = put(terms, Op::Not(b))?;
    put(terms, Op::Or(other, turned))
}

/// The quotient of two terms in a type.
pub(crate) fn quotient(
    alloc: Global,
    terms: &mut Terms,
    ty: Ty,
    a: u32,
    b: u32,
) -> Result<Judged, NoMemory>
    requires a_in { a < length terms.old.ops }
    requires b_in { b < length terms.old.ops }
    ensures { IfOk result (λ j. Gives FitJudged (spec.division_term Op.DivS Op.DivU ty a b) terms.old terms.new j) }
{
    if ty == Ty::Unsigned {
        let quotient = put(terms, Op::DivU(a, b))?;
        return given_one(alloc, Ty::Unsigned, quotient, b);
    }
    let quotient = put(terms, Op::DivS(a, b))?;
    let holds = no_overflow(terms, a, b)?;
    given_two(alloc, Ty::Int, quotient, b, holds)
}

/// The remainder of two terms in a type.
pub(crate) fn remainder(
    alloc: Global,
    terms: &mut Terms,
    ty: Ty,
    a: u32,
    b: u32,
) -> Result<Judged, NoMemory>
    requires a_in { a < length terms.old.ops }
    requires b_in { b < length terms.old.ops }
    ensures { IfOk result (λ j. Gives FitJudged (spec.division_term Op.RemS Op.RemU ty a b) terms.old terms.new j) }
{
    if ty == Ty::Unsigned {
        let remainder = put(terms, Op::RemU(a, b))?;
        return given_one(alloc, Ty::Unsigned, remainder, b);
    }
    let remainder = put(terms, Op::RemS(a, b))?;
    let holds = no_overflow(terms, a, b)?;
    given_two(alloc, Ty::Int, remainder, b, holds)
}

// Nonzero where the count of a shift is from 0 to 31.
fn below_width(terms: &mut Terms, count: u32) -> Result<u32, NoMemory>
    requires { count < length terms.old.ops }
    ensures { IfOk result (λ t. Gives Below (below_width count) terms.old terms.new t) }
{
    let width = put(terms, Op::Const(32))?;
    put(terms, Op::LtU(count, width))
}

/// A term shifted to the left, in its type.
pub(crate) fn shifted_left(
    alloc: Global,
    terms: &mut Terms,
    ty: Ty,
    a: u32,
    b: u32,
) -> Result<Judged, NoMemory>
    requires a_in { a < length terms.old.ops }
    requires b_in { b < length terms.old.ops }
    ensures { IfOk result (λ j. Gives FitJudged (spec.left_shift_term ty a b) terms.old terms.new j) }
{
    let shifted = put(terms, Op::Shl(a, b))?;
    let count = below_width(terms, b)?;
    if ty == Ty::Unsigned {
        return given_one(alloc, Ty::Unsigned, shifted, count);
    }
    let least = put(terms, Op::Const(2_147_483_648))?;
    let past = put(terms, Op::ShrU(least, b))?;
    let in_range = put(terms, Op::LtU(a, past))?;
    given_two(alloc, Ty::Int, shifted, count, in_range)
}

/// A term shifted to the right, in its type.
pub(crate) fn shifted_right(
    alloc: Global,
    terms: &mut Terms,
    ty: Ty,
    a: u32,
    b: u32,
) -> Result<Judged, NoMemory>
    requires a_in { a < length terms.old.ops }
    requires b_in { b < length terms.old.ops }
    ensures { IfOk result (λ j. Gives FitJudged (spec.right_shift_term ty a b) terms.old terms.new j) }
{
    let op = match ty {
        Ty::Int => Op::ShrS(a, b),
        Ty::Unsigned => Op::ShrU(a, b),
    };
    let shifted = put(terms, op)?;
    let count = below_width(terms, b)?;
    given_one(alloc, ty, shifted, count)
}
