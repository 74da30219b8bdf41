//! Operators and their operands.

ghost use Rattle.std.specs.Prelude.{◌≡◌, ◌<◌, length, slice_get, slice_index};
ghost use Rattle.bv_fold.specs.Folding.{operands};
ghost use Rattle.bv_fold.specs.Steps as steps;
ghost use Rattle.bv_fold.specs.Steps.{AreBelow, renamed_op, is_const};

use bv_term::{Op, Terms};

/// The operator over the folds of its operands, where `folded` has the numbers of the folds.
pub(crate) fn over_folds(op: Op, folded: &[u32]) -> Op
    requires { AreBelow (length folded.now) (operands op) }
    ensures { result ≡ renamed_op (slice_index folded.now) op }
{
    match op {
        Op::Input(n) => Op::Input(n),
        Op::Const(n) => Op::Const(n),
        Op::Not(a) => Op::Not(folded[a as usize]),
        Op::Neg(a) => Op::Neg(folded[a as usize]),
        Op::Add(a, b) => Op::Add(folded[a as usize], folded[b as usize]),
        Op::Sub(a, b) => Op::Sub(folded[a as usize], folded[b as usize]),
        Op::Mul(a, b) => Op::Mul(folded[a as usize], folded[b as usize]),
        Op::DivU(a, b) => Op::DivU(folded[a as usize], folded[b as usize]),
        Op::RemU(a, b) => Op::RemU(folded[a as usize], folded[b as usize]),
        Op::DivS(a, b) => Op::DivS(folded[a as usize], folded[b as usize]),
        Op::RemS(a, b) => Op::RemS(folded[a as usize], folded[b as usize]),
        Op::Shl(a, b) => Op::Shl(folded[a as usize], folded[b as usize]),
        Op::ShrU(a, b) => Op::ShrU(folded[a as usize], folded[b as usize]),
        Op::ShrS(a, b) => Op::ShrS(folded[a as usize], folded[b as usize]),
        Op::And(a, b) => Op::And(folded[a as usize], folded[b as usize]),
        Op::Or(a, b) => Op::Or(folded[a as usize], folded[b as usize]),
        Op::Xor(a, b) => Op::Xor(folded[a as usize], folded[b as usize]),
        Op::Eq(a, b) => Op::Eq(folded[a as usize], folded[b as usize]),
        Op::LtU(a, b) => Op::LtU(folded[a as usize], folded[b as usize]),
        Op::LtS(a, b) => Op::LtS(folded[a as usize], folded[b as usize]),
        Op::Ite(c, a, b) => Op::Ite(folded[c as usize], folded[a as usize], folded[b as usize]),
    }
}

/// Whether the operator is no input and its operands are constants.
pub(crate) fn is_over_constants(terms: &Terms, op: Op) -> bool
    requires { AreBelow (length terms.now.ops) (operands op) }
    ensures { result ≡ steps.is_over_constants terms.now.ops op }
{
    match op {
        Op::Input(_) => false,
        Op::Const(_) => true,
        Op::Not(a) | Op::Neg(a) => is_constant(terms, a),
        Op::Add(a, b)
        | Op::Sub(a, b)
        | Op::Mul(a, b)
        | Op::DivU(a, b)
        | Op::RemU(a, b)
        | Op::DivS(a, b)
        | Op::RemS(a, b)
        | Op::Shl(a, b)
        | Op::ShrU(a, b)
        | Op::ShrS(a, b)
        | Op::And(a, b)
        | Op::Or(a, b)
        | Op::Xor(a, b)
        | Op::Eq(a, b)
        | Op::LtU(a, b)
        | Op::LtS(a, b) => is_constant(terms, a) && is_constant(terms, b),
        Op::Ite(c, a, b) => is_constant(terms, c) && is_constant(terms, a) && is_constant(terms, b),
    }
}

// Whether the term is a constant.
fn is_constant(terms: &Terms, term: u32) -> bool
    requires { term < length terms.now.ops }
    ensures { result ≡ is_const (slice_get terms.now.ops term) }
{
    matches!(terms.op(term), Op::Const(_))
}
