//! The bits of operators, from those of their operands.

ghost use Rattle.std.specs.Prelude.{◌≡◌, IfOk, length, map};
ghost use Rattle.bit_circuits.specs.Words.{falses as falses_of};
ghost use Rattle.bit_circuits.specs.Binaries.{binary_bits};
ghost use Rattle.bit_circuits.specs.Formula.{bits_at as bits_at_of};
ghost use Rattle.bit_circuits.specs.Runs.{Adds};

use crate::arithmetic::{add, equal, less, less_signed, subtract};
use crate::binary::Binary;
use crate::gate_words::pairwise;
use crate::literal::Literal;
use crate::moving::Move;
use crate::netlist::Netlist;
use crate::pair::Pair;
use crate::product::multiply;
use crate::quotient::{quotient, remainder};
use crate::shift::stages;
use crate::sign::{quotient_signed, remainder_signed};
use crate::word::{falsity, top, truth_word};
use std::alloc::{AllocError, Global};

/// The bits of a term, among those of all terms so far; `none` is the word 0.
pub fn bits_at<'a>(words: &'a [Vec<Literal>], none: &'a [Literal], term: u32) -> &'a [Literal]
    requires { none.now ≡ falses_of 32 }
    ensures { result.now ≡ bits_at_of (map (λ w. w.items) words.now) term }
{
    if (term as usize) < words.len() {
        words[term as usize].as_slice()
    } else {
        none
    }
}

/// The bits of an operator of two words of one width.
pub(crate) fn binary(
    alloc: Global,
    netlist: &mut Netlist,
    kind: Binary,
    xs: &[Literal],
    ys: &[Literal],
) -> Result<Vec<Literal>, AllocError>
    requires xs_wide { length xs.now ≡ 32 }
    requires ys_wide { length ys.now ≡ 32 }
    ensures { IfOk result (λ bits. Adds (binary_bits kind xs.now ys.now) netlist.old netlist.new bits.items) }
{
    match kind {
        Binary::Add => add(alloc, netlist, xs, ys),
        Binary::Sub => subtract(alloc, netlist, xs, ys),
        Binary::Mul => multiply(alloc, netlist, xs, ys),
        Binary::DivU => quotient(alloc, netlist, xs, ys),
        Binary::RemU => remainder(alloc, netlist, xs, ys),
        Binary::DivS => quotient_signed(alloc, netlist, xs, ys),
        Binary::RemS => remainder_signed(alloc, netlist, xs, ys),
        Binary::Shl => stages(alloc, netlist, &Move::Up, &ys[..5], xs),
        Binary::ShrU => stages(alloc, netlist, &Move::Down(falsity()), &ys[..5], xs),
        Binary::ShrS => stages(alloc, netlist, &Move::Down(top(xs)), &ys[..5], xs),
        Binary::And => pairwise(alloc, netlist, &Pair::And, xs, ys),
        Binary::Or => pairwise(alloc, netlist, &Pair::Or, xs, ys),
        Binary::Xor => pairwise(alloc, netlist, &Pair::Xor, xs, ys),
        Binary::Eq => {
            let bit = equal(netlist, xs, ys)?;
            truth_word(alloc, bit)
        }
        Binary::LtU => {
            let bit = less(alloc, netlist, xs, ys)?;
            truth_word(alloc, bit)
        }
        Binary::LtS => {
            let bit = less_signed(alloc, netlist, xs, ys)?;
            truth_word(alloc, bit)
        }
    }
}
