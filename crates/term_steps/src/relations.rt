//! The terms of relations, of operators on bits, and of all operators whose operands are both evaluated (C11 6.5.5 to
//! 6.5.12).

ghost use Rattle.std.specs.Prelude.{◌≡◌, ◌<◌, length, IfOk};
ghost use Rattle.bv_term.specs.Stores.{FitsOp};
ghost use Rattle.cond_laws.specs.TermOperators as spec;
ghost use Rattle.cond_laws.specs.Fits.{FitJudged};
ghost use Rattle.term_steps.specs.Gives.{Gives};

use crate::division::{quotient, remainder, shifted_left, shifted_right};
use crate::operators::{difference, minus, product, sum};
use crate::putting::{never, put, sure};
use bv_term::{Op, Terms};
use c_semantics::common;
use c_tree::{BinOp, NoMemory, Ty, UnOp};
use cond_laws::Judged;
use std::alloc::Global;

/// The term of an operator that is defined everywhere.
fn one_op(alloc: Global, terms: &mut Terms, ty: Ty, op: Op) -> Result<Judged, NoMemory>
    requires { FitsOp (length terms.old.inputs) (length terms.old.ops) op }
    ensures { IfOk result (λ j. Gives FitJudged (spec.one_op ty op) terms.old terms.new j) }
{
    let term = put(terms, op)?;
    Ok(sure(alloc, ty, term))
}

/// `int` 1 where the operator gives 0, and else 0.
fn negated(alloc: Global, terms: &mut Terms, op: Op) -> Result<Judged, NoMemory>
    requires { FitsOp (length terms.old.inputs) (length terms.old.ops) op }
    ensures { IfOk result (λ j. Gives FitJudged (spec.negation_term op) terms.old terms.new j) }
{
    let term = put(terms, op)?;
    let zero = put(terms, Op::Const(0))?;
    one_op(alloc, terms, Ty::Int, Op::Eq(term, zero))
}

/// Whether a word is less than another, both read in a type.
fn less(ty: Ty, a: u32, b: u32) -> Op
    ensures { result ≡ spec.less_op ty a b }
{
    match ty {
        Ty::Int => Op::LtS(a, b),
        Ty::Unsigned => Op::LtU(a, b),
    }
}

/// `a < b`.
fn is_less(alloc: Global, terms: &mut Terms, ty: Ty, a: u32, b: u32) -> Result<Judged, NoMemory>
    requires a_in { a < length terms.old.ops }
    requires b_in { b < length terms.old.ops }
    ensures { IfOk result (λ j. Gives FitJudged (spec.truth_term (spec.less_op ty a b)) terms.old terms.new j) }
{
    one_op(alloc, terms, Ty::Int, less(ty, a, b))
}

/// `a >= b`.
fn is_not_less(alloc: Global, terms: &mut Terms, ty: Ty, a: u32, b: u32) -> Result<Judged, NoMemory>
    requires a_in { a < length terms.old.ops }
    requires b_in { b < length terms.old.ops }
    ensures { IfOk result (λ j. Gives FitJudged (spec.negation_term (spec.less_op ty a b)) terms.old terms.new j) }
{
    negated(alloc, terms, less(ty, a, b))
}

/// The term of an operator whose operands are both evaluated.
pub(crate) fn binary(
    alloc: Global,
    terms: &mut Terms,
    op: BinOp,
    p: &Judged,
    q: &Judged,
) -> Result<Judged, NoMemory>
    requires p_in { p.now.term < length terms.old.ops }
    requires q_in { q.now.term < length terms.old.ops }
    ensures { IfOk result (λ j. Gives FitJudged (spec.binary_term op p.now.ty p.now.term q.now.ty q.now.term) terms.old
        terms.new j) }
{
    let ty = common(p.ty, q.ty);
    let a = p.term;
    let b = q.term;
    match op {
        BinOp::Mul => product(alloc, terms, ty, a, b),
        BinOp::Div => quotient(alloc, terms, ty, a, b),
        BinOp::Rem => remainder(alloc, terms, ty, a, b),
        BinOp::Add => sum(alloc, terms, ty, a, b),
        BinOp::Sub => difference(alloc, terms, ty, a, b),
        BinOp::Shl => shifted_left(alloc, terms, p.ty, a, b),
        BinOp::Shr => shifted_right(alloc, terms, p.ty, a, b),
        BinOp::Lt => is_less(alloc, terms, ty, a, b),
        BinOp::Gt => is_less(alloc, terms, ty, b, a),
        BinOp::Le => is_not_less(alloc, terms, ty, b, a),
        BinOp::Ge => is_not_less(alloc, terms, ty, a, b),
        BinOp::Eq => one_op(alloc, terms, Ty::Int, Op::Eq(a, b)),
        BinOp::Ne => negated(alloc, terms, Op::Eq(a, b)),
        BinOp::And => one_op(alloc, terms, ty, Op::And(a, b)),
        BinOp::Xor => one_op(alloc, terms, ty, Op::Xor(a, b)),
        BinOp::Or => one_op(alloc, terms, ty, Op::Or(a, b)),
        BinOp::Both => never(alloc, terms, Ty::Int),
        BinOp::Either => never(alloc, terms, Ty::Int),
    }
}

/// The term of an operator with one operand.
pub(crate) fn unary(
    alloc: Global,
    terms: &mut Terms,
    op: UnOp,
    p: &Judged,
) -> Result<Judged, NoMemory>
    requires { p.now.term < length terms.old.ops }
    ensures { IfOk result (λ j. Gives FitJudged (spec.unary_term op p.now.ty p.now.term) terms.old terms.new j) }
{
    match op {
        UnOp::Plus => Ok(sure(alloc, p.ty, p.term)),
        UnOp::Minus => minus(alloc, terms, p.ty, p.term),
        UnOp::Flip => one_op(alloc, terms, p.ty, Op::Not(p.term)),
        UnOp::Not => {
            let zero = put(terms, Op::Const(0))?;
            one_op(alloc, terms, Ty::Int, Op::Eq(p.term, zero))
        }
    }
}
