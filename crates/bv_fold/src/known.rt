//! What is known of the word of a term at every input, from its operator.

ghost use Rattle.std.specs.Prelude.{◌≡◌, ◌<◌, ◌^◌, ℕ, true, length, slice_get, Some, IfSome};
ghost use Rattle.bv_fold.specs.Folding.{operands};
ghost use Rattle.bv_fold.specs.Steps.{AreBelow};
ghost use Rattle.bv_fold.specs.Standing.{
  HasWord,
  HasPower,
  IsMaskOf,
  IsNoShift,
  IsTruth,
  IsNegated,
  IsTurned,
  IsOpposite,
};
ghost use Rattle.bv_term.specs.declared.op.Op.TheVariants.{Eq};

use bv_term::{Op, Terms};

// The operator of a term: its operands are terms that are there.
fn op_at(terms: &Terms, term: u32) -> Op
    requires { term < length terms.now.ops }
    ensures op { slice_get terms.now.ops term ≡ Some result }
    ensures below { AreBelow (length terms.now.ops) (operands result) }
{
    // Each operator of the store fits.
    terms.len();
    *terms.op(term)
}

/// The word of a term that is a constant.
pub(crate) fn constant_at(terms: &Terms, term: u32) -> Option<u32>
    requires { term < length terms.now.ops }
    ensures word { IfSome result (λ n. HasWord terms.now term n) }
    ensures small { IfSome result (λ n. n < 2 ^ 32) }
{
    match terms.op(term) {
        Op::Const(n) => Some(*n),
        _ => None,
    }
}

/// Whether a term is this constant.
pub(crate) fn is_constant(terms: &Terms, term: u32, word: u32) -> bool
    requires { term < length terms.now.ops }
    ensures { result ≡ true → HasWord terms.now term word }
{
    match terms.op(term) {
        Op::Const(n) => *n == word,
        _ => false,
    }
}

/// The exponent, where a term is a constant power of two.
pub(crate) fn power_at(terms: &Terms, term: u32) -> Option<u32>
    requires { term < length terms.now.ops }
    ensures { IfSome result (λ k. HasPower terms.now term k) }
{
    match constant_at(terms, term) {
        None => None,
        Some(word) => exponent(terms, term, word),
    }
}

// The exponent, where this word of a term is a power of two.
fn exponent(terms: &Terms, term: u32, word: u32) -> Option<u32>
    requires { HasWord terms.now term word }
    ensures { IfSome result (λ k. HasPower terms.now term k) }
{
    let exponent = word.trailing_zeros();
    if exponent < 32 && 1u32 << exponent == word {
        Some(exponent)
    } else {
        None
    }
}

/// All bits below that of a constant power of two.
pub(crate) fn mask_at(terms: &Terms, term: u32) -> Option<u32>
    requires { term < length terms.now.ops }
    ensures { IfSome result (λ n. IsMaskOf terms.now term n) }
{
    let exponent = power_at(terms, term)?;
    Some((1u32 << exponent) - 1)
}

/// Whether a term is a constant multiple of 32.
pub(crate) fn is_no_shift(terms: &Terms, term: u32) -> bool
    requires { term < length terms.now.ops }
    ensures { result ≡ true → IsNoShift terms.now term }
{
    match constant_at(terms, term) {
        Some(word) => word % 32 == 0,
        None => false,
    }
}

/// Whether the word of a term is 0 or 1.
pub(crate) fn is_truth(terms: &Terms, term: u32) -> bool
    requires { term < length terms.now.ops }
    ensures { result ≡ true → IsTruth terms.now term }
{
    match op_at(terms, term) {
        Op::Ite(_, a, b) => is_plain_truth(terms, a) && is_plain_truth(terms, b),
        _ => is_plain_truth(terms, term),
    }
}

// Whether a term is a comparison, or the constant 0 or 1.
fn is_plain_truth(terms: &Terms, term: u32) -> bool
    requires { term < length terms.now.ops }
    ensures { result ≡ true → IsTruth terms.now term }
{
    match op_at(terms, term) {
        Op::Eq(_, _) | Op::LtU(_, _) | Op::LtS(_, _) => true,
        Op::Const(n) => n < 2,
        _ => false,
    }
}

/// The other operand, where a term compares it with 0.
pub(crate) fn negated_by(terms: &Terms, term: u32) -> Option<u32>
    requires { term < length terms.now.ops }
    ensures { IfSome result (λ x. IsNegated terms.now term x) }
{
    match op_at(terms, term) {
        Op::Eq(a, b) => other_than_zero(terms, a, b),
        _ => None,
    }
}

// The one of the terms a and b that is not the constant 0, where the other is.
fn other_than_zero(terms: &Terms, a: u32, b: u32) -> Option<u32>
    requires left { a < length terms.now.ops }
    requires right { b < length terms.now.ops }
    ensures { IfSome result (λ x. (t : ℕ) → slice_get terms.now.ops t ≡ Some (Eq a b) → IsNegated terms.now t x) }
{
    if is_constant(terms, b, 0) {
        Some(a)
    } else if is_constant(terms, a, 0) {
        Some(b)
    } else {
        None
    }
}

/// The operand of a term that turns its bits.
pub(crate) fn turned_by(terms: &Terms, term: u32) -> Option<u32>
    requires { term < length terms.now.ops }
    ensures { IfSome result (λ x. IsTurned terms.now term x) }
{
    match op_at(terms, term) {
        Op::Not(a) => Some(a),
        _ => None,
    }
}

/// The operand of a term that is its opposite.
pub(crate) fn opposite_by(terms: &Terms, term: u32) -> Option<u32>
    requires { term < length terms.now.ops }
    ensures { IfSome result (λ x. IsOpposite terms.now term x) }
{
    match op_at(terms, term) {
        Op::Neg(a) => Some(a),
        _ => None,
    }
}
