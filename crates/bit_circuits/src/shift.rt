//! Shifts of words.

ghost use Rattle.std.specs.Prelude.{◌≡◌, ◌≤◌, ◌*◌, ◌^◌, IfOk, length};
ghost use Rattle.bit_circuits.specs.Words.{stages as stages_of};
ghost use Rattle.bit_circuits.specs.Moves.{move_of};
ghost use Rattle.bit_circuits.specs.Runs.{Adds};

use crate::arithmetic::choose;
use crate::literal::Literal;
use crate::moving::Move;
use crate::netlist::Netlist;
use std::alloc::{AllocError, Global};

/// One stage for each bit of the count.
pub(crate) fn stages(
    alloc: Global,
    netlist: &mut Netlist,
    kind: &Move,
    count: &[Literal],
    xs: &[Literal],
) -> Result<Vec<Literal>, AllocError>
    requires five { length count.now ≡ 5 }
    requires wide { length xs.now ≡ 32 }
    ensures { IfOk result (λ bits. Adds (stages_of (move_of kind.now) 1 count.now xs.now) netlist.old netlist.new
        bits.items) }
{
    let mut bits = Vec::from_slice(alloc, xs)?;
    let mut places: usize = 1;
    for i in 0..count.len() {
        let moved = kind.moved(alloc, places, bits.as_slice())?;
        bits = choose(alloc, netlist, count[i], moved.as_slice(), bits.as_slice())?;
        places *= 2;
    }
    Ok(bits)
}
