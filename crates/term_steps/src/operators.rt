//! The terms of sums, differences, products and negatives (C11 6.5.3.3, 6.5.5, 6.5.6).

ghost use Rattle.std.specs.Prelude.{◌≡◌, ◌<◌, length, IfOk};
ghost use Rattle.cond_laws.specs.TermOperators as spec;
ghost use Rattle.cond_laws.specs.Fits.{Below, FitJudged};
ghost use Rattle.term_steps.specs.Gives.{Gives};

use crate::putting::{given_one, put, sure};
use bv_term::{Op, Terms};
use c_tree::{NoMemory, Ty};
use cond_laws::Judged;
use std::alloc::Global;

/// The sum of two terms in a type.
pub(crate) fn sum(
    alloc: Global,
    terms: &mut Terms,
    ty: Ty,
    a: u32,
    b: u32,
) -> Result<Judged, NoMemory>
    requires a_in { a < length terms.old.ops }
    requires b_in { b < length terms.old.ops }
    ensures { IfOk result (λ j. Gives FitJudged (spec.sum_term ty a b) terms.old terms.new j) }
{
    let sum = put(terms, Op::Add(a, b))?;
    if ty == Ty::Unsigned {
        return Ok(sure(alloc, Ty::Unsigned, sum));
    }
    let zero = put(terms, Op::Const(0))?;
    let negative = put(terms, Op::LtS(b, zero))?;
    let below = put(terms, Op::LtS(sum, a))?;
    let holds = put(terms, Op::Eq(negative, below))?;
    given_one(alloc, Ty::Int, sum, holds)
}

/// The difference of two terms in a type.
pub(crate) fn difference(
    alloc: Global,
    terms: &mut Terms,
    ty: Ty,
    a: u32,
    b: u32,
) -> Result<Judged, NoMemory>
    requires a_in { a < length terms.old.ops }
    requires b_in { b < length terms.old.ops }
    ensures { IfOk result (λ j. Gives FitJudged (spec.difference_term ty a b) terms.old terms.new j) }
{
    let difference = put(terms, Op::Sub(a, b))?;
    if ty == Ty::Unsigned {
        return Ok(sure(alloc, Ty::Unsigned, difference));
    }
    let zero = put(terms, Op::Const(0))?;
    let positive = put(terms, Op::LtS(zero, b))?;
    let below = put(terms, Op::LtS(difference, a))?;
    let holds = put(terms, Op::Eq(positive, below))?;
    given_one(alloc, Ty::Int, difference, holds)
}

// The magnitude of an `int`, of which `negative` tells whether it is negative.
fn magnitude(terms: &mut Terms, a: u32, negative: u32) -> Result<u32, NoMemory>
    requires a_in { a < length terms.old.ops }
    requires negative_in { negative < length terms.old.ops }
    ensures { IfOk result (λ t. Gives Below (spec.magnitude_term a negative) terms.old terms.new t) }
{
    let turned = put(terms, Op::Neg(a))?;
    put(terms, Op::Ite(negative, turned, a))
}

/// The product of two terms in a type.
pub(crate) fn product(
    alloc: Global,
    terms: &mut Terms,
    ty: Ty,
    a: u32,
    b: u32,
) -> Result<Judged, NoMemory>
    requires a_in { a < length terms.old.ops }
    requires b_in { b < length terms.old.ops }
    ensures { IfOk result (λ j. Gives FitJudged (spec.product_term ty a b) terms.old terms.new j) }
{
    let product = put(terms, Op::Mul(a, b))?;
    if ty == Ty::Unsigned {
        return Ok(sure(alloc, Ty::Unsigned, product));
    }
    let zero = put(terms, Op::Const(0))?;
    let first_negative = put(terms, Op::LtS(a, zero))?;
    let second_negative = put(terms, Op::LtS(b, zero))?;
    let first = magnitude(terms, a, first_negative)?;
    let second = magnitude(terms, b, second_negative)?;
    let differ = put(terms, Op::Xor(first_negative, second_negative))?;
    let greatest = put(terms, Op::Const(2_147_483_647))?;
    let most = put(terms, Op::Add(greatest, differ))?;
    let quotient = put(terms, Op::DivU(most, second))?;
    let above = put(terms, Op::LtU(quotient, first))?;
    let within = put(terms, Op::Eq(above, zero))?;
    let nothing = put(terms, Op::Eq(b, zero))?;
    let holds = put(terms, Op::Or(within, nothing))?;
    given_one(alloc, Ty::Int, product, holds)
}

/// The negative of a term in a type: 0 less the term.
pub(crate) fn minus(alloc: Global, terms: &mut Terms, ty: Ty, a: u32) -> Result<Judged, NoMemory>
    requires { a < length terms.old.ops }
    ensures { IfOk result (λ j. Gives FitJudged (spec.minus_term ty a) terms.old terms.new j) }
{
    let negative = put(terms, Op::Neg(a))?;
    if ty == Ty::Unsigned {
        return Ok(sure(alloc, Ty::Unsigned, negative));
    }
    let least = put(terms, Op::Const(2_147_483_648))?;
    let holds = put(terms, Op::Xor(a, least))?;
    given_one(alloc, Ty::Int, negative, holds)
}
