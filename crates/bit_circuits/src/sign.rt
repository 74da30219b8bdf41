//! Quotients and remainders of signed words: of magnitudes, with signs.

ghost use Rattle.std.specs.Prelude.{◌≡◌, ◌<◌, IfOk, length};
ghost use Rattle.bit_circuits.specs.Words.{
  negate_if as negate_if_of,
  magnitude as magnitude_of,
  quotient_signed as quotient_signed_of,
  remainder_signed as remainder_signed_of,
};
ghost use Rattle.bit_circuits.specs.Runs.{Adds};

use crate::arithmetic::{choose, negate};
use crate::gate::Gate;
use crate::literal::Literal;
use crate::netlist::Netlist;
use crate::quotient::{quotient, remainder};
use crate::word::top;
use std::alloc::{AllocError, Global};

// 0 less the word where `chooser` is true, and else the word.
fn negate_if(
    alloc: Global,
    netlist: &mut Netlist,
    chooser: Literal,
    xs: &[Literal],
) -> Result<Vec<Literal>, AllocError>
    ensures { IfOk result (λ bits. Adds (negate_if_of chooser xs.now) netlist.old netlist.new bits.items) }
{
    let negated = negate(alloc, netlist, xs)?;
    choose(alloc, netlist, chooser, negated.as_slice(), xs)
}

fn magnitude(
    alloc: Global,
    netlist: &mut Netlist,
    xs: &[Literal],
) -> Result<Vec<Literal>, AllocError>
    ensures { IfOk result (λ bits. Adds (magnitude_of xs.now) netlist.old netlist.new bits.items) }
{
    negate_if(alloc, netlist, top(xs), xs)
}

/// The quotient, truncated toward zero; 0 where the divisor is.
pub(crate) fn quotient_signed(
    alloc: Global,
    netlist: &mut Netlist,
    xs: &[Literal],
    ds: &[Literal],
) -> Result<Vec<Literal>, AllocError>
    requires { 0 < length ds.now }
    ensures { IfOk result (λ bits. Adds (quotient_signed_of xs.now ds.now) netlist.old netlist.new bits.items) }
{
    let dividend = magnitude(alloc, netlist, xs)?;
    let divisor = magnitude(alloc, netlist, ds)?;
    let bits = quotient(alloc, netlist, dividend.as_slice(), divisor.as_slice())?;
    let sign = netlist.add(Gate::Xor(top(xs), top(ds)))?;
    negate_if(alloc, netlist, sign, bits.as_slice())
}

/// The remainder, with the dividend's sign; the dividend where the divisor is 0.
pub(crate) fn remainder_signed(
    alloc: Global,
    netlist: &mut Netlist,
    xs: &[Literal],
    ds: &[Literal],
) -> Result<Vec<Literal>, AllocError>
    requires { 0 < length ds.now }
    ensures { IfOk result (λ bits. Adds (remainder_signed_of xs.now ds.now) netlist.old netlist.new bits.items) }
{
    let dividend = magnitude(alloc, netlist, xs)?;
    let divisor = magnitude(alloc, netlist, ds)?;
    let bits = remainder(alloc, netlist, dividend.as_slice(), divisor.as_slice())?;
    negate_if(alloc, netlist, top(xs), bits.as_slice())
}
