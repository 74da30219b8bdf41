//! Sums, differences, comparisons and choices of words.

ghost use Rattle.std.specs.Prelude.{◌≡◌, IfOk, length};
ghost use Rattle.bit_circuits.specs.Words.{
  add as add_of,
  subtract as subtract_of,
  negate as negate_of,
  less as less_of,
  less_signed as less_signed_of,
  equal as equal_of,
  choose as choose_of,
  if_some as if_some_of,
};
ghost use Rattle.bit_circuits.specs.Runs.{Adds};

use crate::gate_words::{any, differ, pairwise};
use crate::literal::Literal;
use crate::netlist::Netlist;
use crate::pair::Pair;
use crate::sum::{carry, sum};
use crate::word::{falses, falsity, top_turned, truth, turned};
use std::alloc::{AllocError, Global};

/// The sum of two words of one width.
pub(crate) fn add(
    alloc: Global,
    netlist: &mut Netlist,
    xs: &[Literal],
    ys: &[Literal],
) -> Result<Vec<Literal>, AllocError>
    requires { length xs.now ≡ length ys.now }
    ensures { IfOk result (λ bits. Adds (add_of xs.now ys.now) netlist.old netlist.new bits.items) }
{
    let mut bits = sum(alloc, netlist, falsity(), xs, ys)?;
    bits.pop();
    Ok(bits)
}

/// The difference of two words of one width.
pub(crate) fn subtract(
    alloc: Global,
    netlist: &mut Netlist,
    xs: &[Literal],
    ys: &[Literal],
) -> Result<Vec<Literal>, AllocError>
    requires { length xs.now ≡ length ys.now }
    ensures { IfOk result (λ bits. Adds (subtract_of xs.now ys.now) netlist.old netlist.new bits.items) }
{
    let others = turned(alloc, ys)?;
    let mut bits = sum(alloc, netlist, truth(), xs, others.as_slice())?;
    bits.pop();
    Ok(bits)
}

/// 0 less a word.
pub(crate) fn negate(
    alloc: Global,
    netlist: &mut Netlist,
    xs: &[Literal],
) -> Result<Vec<Literal>, AllocError>
    ensures { IfOk result (λ bits. Adds (negate_of xs.now) netlist.old netlist.new bits.items) }
{
    let none = falses(alloc, xs.len())?;
    subtract(alloc, netlist, none.as_slice(), xs)
}

/// Whether one word is below another of its width.
pub(crate) fn less(
    alloc: Global,
    netlist: &mut Netlist,
    xs: &[Literal],
    ys: &[Literal],
) -> Result<Literal, AllocError>
    requires { length xs.now ≡ length ys.now }
    ensures { IfOk result (λ bit. Adds (less_of xs.now ys.now) netlist.old netlist.new bit) }
{
    let others = turned(alloc, ys)?;
    let fits = carry(netlist, truth(), xs, others.as_slice())?;
    Ok(fits.negated())
}

/// The same of signed words.
pub(crate) fn less_signed(
    alloc: Global,
    netlist: &mut Netlist,
    xs: &[Literal],
    ys: &[Literal],
) -> Result<Literal, AllocError>
    requires { length xs.now ≡ length ys.now }
    ensures { IfOk result (λ bit. Adds (less_signed_of xs.now ys.now) netlist.old netlist.new bit) }
{
    let one = top_turned(alloc, xs)?;
    let other = top_turned(alloc, ys)?;
    less(alloc, netlist, one.as_slice(), other.as_slice())
}

/// Whether two words of one width are equal.
pub(crate) fn equal(
    netlist: &mut Netlist,
    xs: &[Literal],
    ys: &[Literal],
) -> Result<Literal, AllocError>
    requires { length xs.now ≡ length ys.now }
    ensures { IfOk result (λ bit. Adds (equal_of xs.now ys.now) netlist.old netlist.new bit) }
{
    let other = differ(netlist, falsity(), xs, ys)?;
    Ok(other.negated())
}

/// The first word where `chooser` is true, and else the second, of one width.
pub(crate) fn choose(
    alloc: Global,
    netlist: &mut Netlist,
    chooser: Literal,
    xs: &[Literal],
    ys: &[Literal],
) -> Result<Vec<Literal>, AllocError>
    requires { length xs.now ≡ length ys.now }
    ensures { IfOk result (λ bits. Adds (choose_of chooser xs.now ys.now) netlist.old netlist.new bits.items) }
{
    let kind = Pair::Choice(chooser);
    pairwise(alloc, netlist, &kind, xs, ys)
}

/// The second word where the first is not 0, and else the third.
pub(crate) fn if_some(
    alloc: Global,
    netlist: &mut Netlist,
    tested: &[Literal],
    xs: &[Literal],
    ys: &[Literal],
) -> Result<Vec<Literal>, AllocError>
    requires { length xs.now ≡ length ys.now }
    ensures { IfOk result (λ bits. Adds (if_some_of tested.now xs.now ys.now) netlist.old netlist.new bits.items) }
{
    let some = any(netlist, falsity(), tested)?;
    choose(alloc, netlist, some, xs, ys)
}
