//! Quotients and remainders of words.

ghost use Rattle.std.specs.Prelude.{◌≡◌, ◌<◌, IfOk, length};
ghost use Rattle.bit_circuits.specs.Words.{
  divide as divide_of,
  quotient_bits as quotient_of,
  remainder_bits as remainder_of,
};
ghost use Rattle.bit_circuits.specs.Runs.{Adds};

use crate::arithmetic::choose;
use crate::gate_words::{any, masked};
use crate::literal::Literal;
use crate::netlist::Netlist;
use crate::sum::sum;
use crate::word::{falses, falsity, lower, top, truth, turned};
use std::alloc::{AllocError, Global};

/// A quotient and a remainder.
#[derive(Drop)]
struct Division {
    quotient: Vec<Literal>,
    remainder: Vec<Literal>,
}

/// The bits of the dividend from the highest on: each goes below the remainder so far, from which the divisor is taken
/// where it fits.
fn divide(
    alloc: Global,
    netlist: &mut Netlist,
    xs: &[Literal],
    ds: &[Literal],
) -> Result<Division, AllocError>
    requires { 0 < length ds.now }
    ensures { IfOk result (λ both. Adds (divide_of xs.now ds.now) netlist.old netlist.new
        (record { quotient = both.quotient.items; remainder = both.remainder.items })) }
{
    let others = turned(alloc, ds)?;
    let mut quotient = Vec::new(alloc);
    let mut remainder = falses(alloc, ds.len())?;
    for i in (0..xs.len()).rev() {
        let x = xs[i];
        remainder.insert(0, x)?;
        remainder.pop();
        let total = sum(
            alloc,
            netlist,
            truth(),
            remainder.as_slice(),
            others.as_slice(),
        )?;
        let fits = top(total.as_slice());
        remainder = choose(
            alloc,
            netlist,
            fits,
            lower(total.as_slice()),
            remainder.as_slice(),
        )?;
        quotient.insert(0, fits)?;
    }
    Ok(Division {
        quotient,
        remainder,
    })
}

/// The quotient, which is 0 where the divisor is.
pub(crate) fn quotient(
    alloc: Global,
    netlist: &mut Netlist,
    xs: &[Literal],
    ds: &[Literal],
) -> Result<Vec<Literal>, AllocError>
    requires { 0 < length ds.now }
    ensures { IfOk result (λ bits. Adds (quotient_of xs.now ds.now) netlist.old netlist.new bits.items) }
{
    let both = divide(alloc, netlist, xs, ds)?;
    let some = any(netlist, falsity(), ds)?;
    masked(alloc, netlist, some, both.quotient.as_slice())
}

/// The remainder, which is the dividend where the divisor is 0.
pub(crate) fn remainder(
    alloc: Global,
    netlist: &mut Netlist,
    xs: &[Literal],
    ds: &[Literal],
) -> Result<Vec<Literal>, AllocError>
    requires { 0 < length ds.now }
    ensures { IfOk result (λ bits. Adds (remainder_of xs.now ds.now) netlist.old netlist.new bits.items) }
{
    let both = divide(alloc, netlist, xs, ds)?;
    Ok(both.remainder)
}
