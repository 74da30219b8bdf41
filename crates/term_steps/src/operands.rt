//! Operators whose operands have conditions, and operands that are not always evaluated (C11 6.5.13 to 6.5.15).

ghost use Rattle.std.specs.Prelude.{◌≡◌, ◌<◌, ◌++◌, length, IfOk};
ghost use Rattle.cond_laws.specs.TermOperators as spec;
ghost use Rattle.cond_laws.specs.Conditions.{AllBelow};
ghost use Rattle.cond_laws.specs.Fits.{Below, FitJudged};
ghost use Rattle.term_steps.specs.Gives.{Gives};
ghost use Rattle.term_steps.specs.Parts.{one_where_true, one_where_false, both_value, either_value};

use crate::putting::put;
use crate::relations::{binary, unary};
use bv_term::{Op, Terms};
use c_semantics::common;
use c_tree::{BinOp, NoMemory, Ty, UnOp};
use cond_laws::Judged;
use sqlite_items::Items;
use std::alloc::Global;

/// One list after the other.
pub fn joined(first: Items<u32>, more: Items<u32>) -> Result<Items<u32>, NoMemory>
    ensures { IfOk result (λ all. all ≡ first ++ more) }
{
    let mut all = first;
    all.append(more)?;
    Ok(all)
}

// A condition of an operand that is evaluated where `chooser` is not 0: it is 1 elsewhere.
fn one_where_true(terms: &mut Terms, chooser: u32, condition: u32) -> Result<u32, NoMemory>
    requires chooser_in { chooser < length terms.old.ops }
    requires condition_in { condition < length terms.old.ops }
    ensures { IfOk result (λ t. Gives Below (one_where_true chooser condition) terms.old terms.new t) }
{
    let one = put(terms, Op::Const(1))?;
    put(terms, Op::Ite(chooser, condition, one))
}

// A condition of an operand that is evaluated where `chooser` is 0: it is 1 elsewhere.
fn one_where_false(terms: &mut Terms, chooser: u32, condition: u32) -> Result<u32, NoMemory>
    requires chooser_in { chooser < length terms.old.ops }
    requires condition_in { condition < length terms.old.ops }
    ensures { IfOk result (λ t. Gives Below (one_where_false chooser condition) terms.old terms.new t) }
{
    let one = put(terms, Op::Const(1))?;
    put(terms, Op::Ite(chooser, one, condition))
}

// The conditions of an operand that is evaluated where `chooser` is not 0.
fn where_true(
    alloc: Global,
    terms: &mut Terms,
    chooser: u32,
    conditions: &[u32],
) -> Result<Items<u32>, NoMemory>
    requires chooser_in { chooser < length terms.old.ops }
    requires conditions_in { AllBelow (length terms.old.ops) conditions.now }
    ensures { IfOk result (λ cs. Gives AllBelow (spec.conditions_where_true chooser conditions.now) terms.old terms.new
        cs) }
{
    let mut chosen = Items::new(alloc);
    for condition in conditions {
        let choice = one_where_true(terms, chooser, *condition)?;
        chosen.push(choice)?;
    }
    Ok(chosen)
}

// The conditions of an operand that is evaluated where `chooser` is 0.
fn where_false(
    alloc: Global,
    terms: &mut Terms,
    chooser: u32,
    conditions: &[u32],
) -> Result<Items<u32>, NoMemory>
    requires chooser_in { chooser < length terms.old.ops }
    requires conditions_in { AllBelow (length terms.old.ops) conditions.now }
    ensures { IfOk result (λ cs. Gives AllBelow (spec.conditions_where_false chooser conditions.now) terms.old
        terms.new cs) }
{
    let mut chosen = Items::new(alloc);
    for condition in conditions {
        let choice = one_where_false(terms, chooser, *condition)?;
        chosen.push(choice)?;
    }
    Ok(chosen)
}

// 1 where neither word is 0, and else 0.
fn both_value(terms: &mut Terms, a: u32, b: u32) -> Result<u32, NoMemory>
    requires a_in { a < length terms.old.ops }
    requires b_in { b < length terms.old.ops }
    ensures { IfOk result (λ t. Gives Below (both_value a b) terms.old terms.new t) }
{
    let one = put(terms, Op::Const(1))?;
    let zero = put(terms, Op::Const(0))?;
    let right = put(terms, Op::Ite(b, one, zero))?;
    put(terms, Op::Ite(a, right, zero))
}

// 0 where both words are 0, and else 1.
fn either_value(terms: &mut Terms, a: u32, b: u32) -> Result<u32, NoMemory>
    requires a_in { a < length terms.old.ops }
    requires b_in { b < length terms.old.ops }
    ensures { IfOk result (λ t. Gives Below (either_value a b) terms.old terms.new t) }
{
    let one = put(terms, Op::Const(1))?;
    let zero = put(terms, Op::Const(0))?;
    let right = put(terms, Op::Ite(b, one, zero))?;
    put(terms, Op::Ite(a, one, right))
}

// `p && q`: where p is 0, q need not be defined.
fn both(alloc: Global, terms: &mut Terms, p: Judged, q: Judged) -> Result<Judged, NoMemory>
    requires p_in { FitJudged (length terms.old.ops) p }
    requires q_in { FitJudged (length terms.old.ops) q }
    ensures { IfOk result (λ j. Gives FitJudged (spec.both_term p q) terms.old terms.new j) }
{
    let term = both_value(terms, p.term, q.term)?;
    let more = where_true(alloc, terms, p.term, q.conditions.as_slice())?;
    let conditions = joined(p.conditions, more)?;
    Ok(Judged {
        ty: Ty::Int,
        term,
        conditions,
    })
}

// `p || q`: where p is not 0, q need not be defined.
fn either(alloc: Global, terms: &mut Terms, p: Judged, q: Judged) -> Result<Judged, NoMemory>
    requires p_in { FitJudged (length terms.old.ops) p }
    requires q_in { FitJudged (length terms.old.ops) q }
    ensures { IfOk result (λ j. Gives FitJudged (spec.either_term p q) terms.old terms.new j) }
{
    let term = either_value(terms, p.term, q.term)?;
    let more = where_false(alloc, terms, p.term, q.conditions.as_slice())?;
    let conditions = joined(p.conditions, more)?;
    Ok(Judged {
        ty: Ty::Int,
        term,
        conditions,
    })
}

/// `c ? p : q`: only the one that is chosen has to be defined.
pub(crate) fn chosen(
    alloc: Global,
    terms: &mut Terms,
    c: Judged,
    p: Judged,
    q: Judged,
) -> Result<Judged, NoMemory>
    requires c_in { FitJudged (length terms.old.ops) c }
    requires p_in { FitJudged (length terms.old.ops) p }
    requires q_in { FitJudged (length terms.old.ops) q }
    ensures { IfOk result (λ j. Gives FitJudged (spec.choice_term c p q) terms.old terms.new j) }
{
    let term = put(terms, Op::Ite(c.term, p.term, q.term))?;
    let first = where_true(alloc, terms, c.term, p.conditions.as_slice())?;
    let second = where_false(alloc, terms, c.term, q.conditions.as_slice())?;
    let sides = joined(first, second)?;
    let conditions = joined(c.conditions, sides)?;
    Ok(Judged {
        ty: common(p.ty, q.ty),
        term,
        conditions,
    })
}

// An operator whose operands are both evaluated.
fn with_operands(
    alloc: Global,
    terms: &mut Terms,
    op: BinOp,
    p: Judged,
    q: Judged,
) -> Result<Judged, NoMemory>
    requires p_in { FitJudged (length terms.old.ops) p }
    requires q_in { FitJudged (length terms.old.ops) q }
    ensures { IfOk result (λ j. Gives FitJudged (spec.with_operands p q (spec.binary_term op p.ty p.term q.ty q.term))
        terms.old terms.new j) }
{
    let value = binary(alloc, terms, op, &p, &q)?;
    let operands = joined(p.conditions, q.conditions)?;
    let conditions = joined(operands, value.conditions)?;
    Ok(Judged {
        ty: value.ty,
        term: value.term,
        conditions,
    })
}

/// A binary operator.
pub fn operated(
    alloc: Global,
    terms: &mut Terms,
    op: BinOp,
    p: Judged,
    q: Judged,
) -> Result<Judged, NoMemory>
    requires p_in { FitJudged (length terms.old.ops) p }
    requires q_in { FitJudged (length terms.old.ops) q }
    ensures { IfOk result (λ j. Gives FitJudged (spec.operation_term op p q) terms.old terms.new j) }
{
    match op {
        BinOp::Both => both(alloc, terms, p, q),
        BinOp::Either => either(alloc, terms, p, q),
        _ => with_operands(alloc, terms, op, p, q),
    }
}

/// A unary operator.
pub(crate) fn with_unary(
    alloc: Global,
    terms: &mut Terms,
    op: UnOp,
    p: Judged,
) -> Result<Judged, NoMemory>
    requires { FitJudged (length terms.old.ops) p }
    ensures { IfOk result (λ j. Gives FitJudged (spec.with_unary op p) terms.old terms.new j) }
{
    let value = unary(alloc, terms, op, &p)?;
    let conditions = joined(p.conditions, value.conditions)?;
    Ok(Judged {
        ty: value.ty,
        term: value.term,
        conditions,
    })
}
