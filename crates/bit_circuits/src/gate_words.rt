//! Gates for each bit of words.

ghost use Rattle.std.specs.Prelude.{◌≡◌, IfOk, length};
ghost use Rattle.bit_circuits.specs.Words.{
  pairwise as pairwise_of,
  masked_word as masked_of,
  any as any_of,
  differ as differ_of,
};
ghost use Rattle.bit_circuits.specs.Pairs.{gate_of as gate_at};
ghost use Rattle.bit_circuits.specs.Runs.{Adds};

use crate::gate::Gate;
use crate::literal::Literal;
use crate::netlist::Netlist;
use crate::pair::Pair;
use std::alloc::{AllocError, Global};

/// A gate for each two bits of two words of one width.
pub(crate) fn pairwise(
    alloc: Global,
    netlist: &mut Netlist,
    kind: &Pair,
    xs: &[Literal],
    ys: &[Literal],
) -> Result<Vec<Literal>, AllocError>
    requires { length xs.now ≡ length ys.now }
    ensures { IfOk result (λ bits. Adds (pairwise_of (gate_at kind.now) xs.now ys.now) netlist.old netlist.new
        bits.items) }
{
    let mut bits = Vec::new(alloc);
    for i in 0..xs.len() {
        let x = xs[i];
        let y = ys[i];
        let bit = netlist.add(kind.gate_of(x, y))?;
        bits.push(bit)?;
    }
    Ok(bits)
}

/// The word where `chosen` is true, and else 0.
pub(crate) fn masked(
    alloc: Global,
    netlist: &mut Netlist,
    chosen: Literal,
    xs: &[Literal],
) -> Result<Vec<Literal>, AllocError>
    ensures { IfOk result (λ bits. Adds (masked_of chosen xs.now) netlist.old netlist.new bits.items) }
{
    let mut bits = Vec::new(alloc);
    for i in 0..xs.len() {
        let x = xs[i];
        let bit = netlist.add(Gate::And(chosen, x))?;
        bits.push(bit)?;
    }
    Ok(bits)
}

/// Whether `some` or one of the bits is true.
pub(crate) fn any(
    netlist: &mut Netlist,
    some: Literal,
    xs: &[Literal],
) -> Result<Literal, AllocError>
    ensures { IfOk result (λ last. Adds (any_of some xs.now) netlist.old netlist.new last) }
{
    let mut some = some;
    for i in 0..xs.len() {
        let x = xs[i];
        some = netlist.add(Gate::Or(some, x))?;
    }
    Ok(some)
}

/// Whether `some` is true or two words of one width differ.
pub(crate) fn differ(
    netlist: &mut Netlist,
    some: Literal,
    xs: &[Literal],
    ys: &[Literal],
) -> Result<Literal, AllocError>
    requires { length xs.now ≡ length ys.now }
    ensures { IfOk result (λ last. Adds (differ_of some xs.now ys.now) netlist.old netlist.new last) }
{
    let mut some = some;
    for i in 0..xs.len() {
        let x = xs[i];
        let y = ys[i];
        let bit = netlist.add(Gate::Xor(x, y))?;
        some = netlist.add(Gate::Or(some, bit))?;
    }
    Ok(some)
}
