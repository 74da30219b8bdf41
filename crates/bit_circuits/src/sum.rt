//! Sums of words, bit by bit.

ghost use Rattle.std.specs.Prelude.{◌≡◌, IfOk, length};
ghost use Rattle.bit_circuits.specs.Words.{sum as sum_of, carry as carry_of};
ghost use Rattle.bit_circuits.specs.Runs.{Adds};

use crate::gate::Gate;
use crate::literal::Literal;
use crate::netlist::Netlist;
use std::alloc::{AllocError, Global};

/// The sum of two words of one width and a carry, one bit wider.
pub(crate) fn sum(
    alloc: Global,
    netlist: &mut Netlist,
    carry: Literal,
    xs: &[Literal],
    ys: &[Literal],
) -> Result<Vec<Literal>, AllocError>
    requires { length xs.now ≡ length ys.now }
    ensures { IfOk result (λ bits. Adds (sum_of carry xs.now ys.now) netlist.old netlist.new bits.items) }
{
    let mut bits = Vec::new(alloc);
    let mut carry = carry;
    for i in 0..xs.len() {
        let x = xs[i];
        let y = ys[i];
        let half = netlist.add(Gate::Xor(x, y))?;
        let bit = netlist.add(Gate::Xor(half, carry))?;
        carry = netlist.add(Gate::Majority(x, y, carry))?;
        bits.push(bit)?;
    }
    bits.push(carry)?;
    Ok(bits)
}

/// The carry of that sum.
pub(crate) fn carry(
    netlist: &mut Netlist,
    carry: Literal,
    xs: &[Literal],
    ys: &[Literal],
) -> Result<Literal, AllocError>
    requires { length xs.now ≡ length ys.now }
    ensures { IfOk result (λ last. Adds (carry_of carry xs.now ys.now) netlist.old netlist.new last) }
{
    let mut carry = carry;
    for i in 0..xs.len() {
        let x = xs[i];
        let y = ys[i];
        carry = netlist.add(Gate::Majority(x, y, carry))?;
    }
    Ok(carry)
}
