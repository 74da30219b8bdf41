//! The bits of terms.

ghost use Rattle.std.specs.Prelude.{◌≡◌, ◌≤◌, ℕ, IfOk, length, map, List, []};
ghost use Rattle.cnf_form.specs.Literals.{most};
ghost use Rattle.bv_term.specs.Stores.{FitFrom};
ghost use Rattle.bit_circuits.specs.Fitting.{IsOver};
ghost use Rattle.bit_circuits.specs.Words.{falses as falses_of};
ghost use Rattle.bit_circuits.specs.Formula.{
  first_of,
  bits_at as bits_at_of,
  op_bits as op_bits_of,
  terms_bits as terms_bits_of,
};
ghost use Rattle.bit_circuits.specs.Runs.{Adds, next_of};

use crate::arithmetic::{if_some, negate};
use crate::binary::Binary;
use crate::literal::Literal;
use crate::netlist::Netlist;
use crate::operator::{binary, bits_at};
use crate::word::{constant, falses, input_bits, turned};
use bv_term::Op;
use std::alloc::{AllocError, Global};

/// The bits of an operator, from those of the terms so far; `none` is the word 0, and `inputs` the number of inputs.
pub(crate) fn op_bits(
    alloc: Global,
    netlist: &mut Netlist,
    words: &[Vec<Literal>],
    none: &[Literal],
    inputs: usize,
    op: &Op,
) -> Result<Vec<Literal>, AllocError>
    requires none { none.now ≡ falses_of 32 }
    requires wide { (t : ℕ) → length (bits_at_of (map (λ w. w.items) words.now) t) ≡ 32 }
    requires few { first_of inputs ≤ most }
    requires over { IsOver inputs op.now }
    ensures { IfOk result (λ bits. Adds (op_bits_of (bits_at_of (map (λ w. w.items) words.now)) op.now) netlist.old
        netlist.new bits.items) }
{
    match *op {
        Op::Input(n) => input_bits(alloc, n),
        Op::Const(n) => constant(alloc, n),
        Op::Not(a) => turned(alloc, bits_at(words, none, a)),
        Op::Neg(a) => negate(alloc, netlist, bits_at(words, none, a)),
        Op::Add(a, b) => binary(
            alloc,
            netlist,
            Binary::Add,
            bits_at(words, none, a),
            bits_at(words, none, b),
        ),
        Op::Sub(a, b) => binary(
            alloc,
            netlist,
            Binary::Sub,
            bits_at(words, none, a),
            bits_at(words, none, b),
        ),
        Op::Mul(a, b) => binary(
            alloc,
            netlist,
            Binary::Mul,
            bits_at(words, none, a),
            bits_at(words, none, b),
        ),
        Op::DivU(a, b) => binary(
            alloc,
            netlist,
            Binary::DivU,
            bits_at(words, none, a),
            bits_at(words, none, b),
        ),
        Op::RemU(a, b) => binary(
            alloc,
            netlist,
            Binary::RemU,
            bits_at(words, none, a),
            bits_at(words, none, b),
        ),
        Op::DivS(a, b) => binary(
            alloc,
            netlist,
            Binary::DivS,
            bits_at(words, none, a),
            bits_at(words, none, b),
        ),
        Op::RemS(a, b) => binary(
            alloc,
            netlist,
            Binary::RemS,
            bits_at(words, none, a),
            bits_at(words, none, b),
        ),
        Op::Shl(a, b) => binary(
            alloc,
            netlist,
            Binary::Shl,
            bits_at(words, none, a),
            bits_at(words, none, b),
        ),
        Op::ShrU(a, b) => binary(
            alloc,
            netlist,
            Binary::ShrU,
            bits_at(words, none, a),
            bits_at(words, none, b),
        ),
        Op::ShrS(a, b) => binary(
            alloc,
            netlist,
            Binary::ShrS,
            bits_at(words, none, a),
            bits_at(words, none, b),
        ),
        Op::And(a, b) => binary(
            alloc,
            netlist,
            Binary::And,
            bits_at(words, none, a),
            bits_at(words, none, b),
        ),
        Op::Or(a, b) => binary(
            alloc,
            netlist,
            Binary::Or,
            bits_at(words, none, a),
            bits_at(words, none, b),
        ),
        Op::Xor(a, b) => binary(
            alloc,
            netlist,
            Binary::Xor,
            bits_at(words, none, a),
            bits_at(words, none, b),
        ),
        Op::Eq(a, b) => binary(
            alloc,
            netlist,
            Binary::Eq,
            bits_at(words, none, a),
            bits_at(words, none, b),
        ),
        Op::LtU(a, b) => binary(
            alloc,
            netlist,
            Binary::LtU,
            bits_at(words, none, a),
            bits_at(words, none, b),
        ),
        Op::LtS(a, b) => binary(
            alloc,
            netlist,
            Binary::LtS,
            bits_at(words, none, a),
            bits_at(words, none, b),
        ),
        Op::Ite(chooser, a, b) => if_some(
            alloc,
            netlist,
            bits_at(words, none, chooser),
            bits_at(words, none, a),
            bits_at(words, none, b),
        ),
    }
}

/// The bits of all terms, in order.
pub fn terms_bits(
    alloc: Global,
    netlist: &mut Netlist,
    inputs: usize,
    ops: &[Op],
) -> Result<Vec<Vec<Literal>>, AllocError>
    requires few { first_of inputs ≤ most }
    requires past { first_of inputs ≤ next_of netlist.old }
    requires over { FitFrom inputs 0 ops.now }
    ensures { IfOk result (λ words. Adds (terms_bits_of [] ops.now) netlist.old netlist.new
        (map (λ w. w.items) words.items)) }
{
    let none = falses(alloc, 32)?;
    let mut words = Vec::new(alloc);
    for op in ops {
        let word = op_bits(
            alloc,
            netlist,
            words.as_slice(),
            none.as_slice(),
            inputs,
            op,
        )?;
        words.push(word)?;
    }
    Ok(words)
}
