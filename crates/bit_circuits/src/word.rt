//! Words without gates: lists of literals, lowest bit first.

ghost use Rattle.std.specs.Prelude.{◌≡◌, ◌≤◌, ◌+◌, IfOk, length, map, neg_ℤ, drop, slice_index_or};
ghost use Rattle.cnf_form.specs.Literals.{most};
ghost use Rattle.bit_circuits.specs.Words.{
  true_literal as truth_of,
  false_literal as falsity_of,
  falses as falses_of,
  constant_bits as constant_of,
  truth_word as truth_word_of,
  top as top_of,
  lower as lower_of,
  top_turned as top_turned_of,
};
ghost use Rattle.bit_circuits.specs.Formula.{first_of, input_bits as input_bits_of};

use crate::literal::Literal;
use std::alloc::{AllocError, Global};

/// The literal that is true.
pub fn truth() -> Literal
    ensures { result ≡ truth_of }
{
    Literal::of_variable(1)
}

/// The literal that is false.
pub(crate) fn falsity() -> Literal
    ensures { result ≡ falsity_of }
{
    truth().negated()
}

/// The number 0, in so many bits.
pub fn falses(alloc: Global, bits: usize) -> Result<Vec<Literal>, AllocError>
    ensures { IfOk result (λ word. word.items ≡ falses_of bits) }
{
    vec![in alloc; falsity(); bits]
}

/// A constant.
pub(crate) fn constant(alloc: Global, number: u32) -> Result<Vec<Literal>, AllocError>
    ensures { IfOk result (λ word. word.items ≡ constant_of 32 number) }
{
    let mut word = Vec::new(alloc);
    let mut rest = number;
    for i in 0..32usize {
        let bit = if rest % 2 == 0 { falsity() } else { truth() };
        word.push(bit)?;
        rest /= 2;
    }
    Ok(word)
}

/// A truth value.
pub(crate) fn truth_word(alloc: Global, bit: Literal) -> Result<Vec<Literal>, AllocError>
    ensures { IfOk result (λ word. word.items ≡ truth_word_of 32 bit) }
{
    let mut word = Vec::new(alloc);
    word.push(bit)?;
    let higher = falses(alloc, 31)?;
    word.extend_from_slice(higher.as_slice())?;
    Ok(word)
}

/// The variables of the word of an input.
pub(crate) fn input_bits(alloc: Global, input: u32) -> Result<Vec<Literal>, AllocError>
    requires { first_of (input + 1) ≤ most }
    ensures { IfOk result (λ word. word.items ≡ input_bits_of input) }
{
    let mut word = Vec::new(alloc);
    let mut next = 2 + 32 * input;
    for i in 0..32usize {
        word.push(Literal::of_variable(next))?;
        next += 1;
    }
    Ok(word)
}

/// Each bit turned.
pub(crate) fn turned(alloc: Global, xs: &[Literal]) -> Result<Vec<Literal>, AllocError>
    ensures { IfOk result (λ word. word.items ≡ map neg_ℤ xs.now) }
{
    xs.iter().map(|x| x.negated()).collect(alloc)
}

/// The highest bit.
pub(crate) fn top(xs: &[Literal]) -> Literal
    ensures { result ≡ top_of xs.now }
{
    if xs.is_empty() {
        falsity()
    } else {
        xs[xs.len() - 1]
    }
}

/// The bits but for the highest.
pub(crate) fn lower(xs: &[Literal]) -> &[Literal]
    ensures { result.now ≡ lower_of xs.now }
{
    if xs.is_empty() {
        xs
    } else {
        &xs[..xs.len() - 1]
    }
}

/// The lowest bit.
pub(crate) fn lowest(xs: &[Literal]) -> Literal
    ensures { result ≡ slice_index_or xs.now 0 falsity_of }
{
    if xs.is_empty() { falsity() } else { xs[0] }
}

/// The bits but for the lowest.
pub(crate) fn higher(xs: &[Literal]) -> &[Literal]
    ensures { result.now ≡ drop 1 xs.now }
{
    if xs.is_empty() { xs } else { &xs[1..] }
}

/// With the highest bit turned.
pub(crate) fn top_turned(alloc: Global, xs: &[Literal]) -> Result<Vec<Literal>, AllocError>
    ensures { IfOk result (λ word. word.items ≡ top_turned_of xs.now) }
{
    if xs.is_empty() {
        return Ok(Vec::new(alloc));
    }
    let mut word = Vec::from_slice(alloc, lower(xs))?;
    let highest = top(xs).negated();
    word.push(highest)?;
    Ok(word)
}
