//! Products of words.

ghost use Rattle.std.specs.Prelude.{◌≡◌, IfOk, length};
ghost use Rattle.bit_circuits.specs.Words.{multiply as multiply_of};
ghost use Rattle.bit_circuits.specs.Runs.{Adds};

use crate::gate_words::masked;
use crate::literal::Literal;
use crate::netlist::Netlist;
use crate::sum::sum;
use crate::word::{falses, falsity, higher, lower, lowest};
use std::alloc::{AllocError, Global};

/// The product of two words of one width: shifted rows, summed. Each row gives one more bit.
pub(crate) fn multiply(
    alloc: Global,
    netlist: &mut Netlist,
    xs: &[Literal],
    ys: &[Literal],
) -> Result<Vec<Literal>, AllocError>
    requires { length xs.now ≡ length ys.now }
    ensures { IfOk result (λ bits. Adds (multiply_of xs.now ys.now) netlist.old netlist.new bits.items) }
{
    let mut bits = Vec::new(alloc);
    let mut so_far = falses(alloc, xs.len())?;
    let mut rest = xs;
    for i in 0..ys.len() {
        let y = ys[i];
        let row = masked(alloc, netlist, y, rest)?;
        let total = sum(alloc, netlist, falsity(), so_far.as_slice(), row.as_slice())?;
        bits.push(lowest(total.as_slice()))?;
        so_far = Vec::from_slice(alloc, lower(higher(total.as_slice())))?;
        rest = lower(rest);
    }
    Ok(bits)
}
