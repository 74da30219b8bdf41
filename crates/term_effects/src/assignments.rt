//! Assignments (C11 6.5.16).

ghost use Rattle.std.specs.Prelude.{◌≡◌, ◌<◌, ◌^◌, length, IfOk};
ghost use Rattle.cond_laws.specs.TermStatements as spec;
ghost use Rattle.cond_laws.specs.TermStatements.{effect_with};
ghost use Rattle.cond_laws.specs.TermStores.{held_at};
ghost use Rattle.cond_laws.specs.Fits.{FitEffect, FitJudged, FitStore};
ghost use Rattle.term_steps.specs.Gives.{Gives};

use crate::arrays::replaced;
use crate::slots::{nowhere, put_slot, put_term};
use bv_term::Terms;
use c_tree::{BinOp, Expr, NoMemory, Place, Var};
use cond_laws::{Judged, TermSlot, TermStore};
use sqlite_items::Items;
use std::alloc::Global;
use term_steps::{array_in, element, expr, held, held_ty, joined, named, operated, within};

// The value of a place, as a compound assignment reads it.
fn place_value(
    alloc: Global,
    terms: &mut Terms,
    place: &Place,
    store: &TermStore,
) -> Result<Judged, NoMemory>
    requires { FitStore (length terms.old.ops) store.now }
    ensures { IfOk result (λ j. Gives FitJudged (spec.place_term place.now store.now) terms.old terms.new j) }
{
    match place {
        Place::Scalar(x) => named(alloc, terms, held(store, *x)),
        Place::Elem(x, at) => {
            let at = expr(alloc, terms, at, store)?;
            element(terms, held(store, *x), at)
        }
    }
}

// The value that is assigned: that of `p op e` where there is an operator (6.5.16.2).
fn assigned_value(
    alloc: Global,
    terms: &mut Terms,
    place: &Place,
    op: &Option<BinOp>,
    value: &Expr,
    store: &TermStore,
) -> Result<Judged, NoMemory>
    requires { FitStore (length terms.old.ops) store.now }
    ensures { IfOk result (λ j.
        Gives FitJudged (spec.assigned_term place.now op.now value.now store.now) terms.old terms.new j) }
{
    match op {
        None => expr(alloc, terms, value, store),
        Some(op) => {
            let before = place_value(alloc, terms, place, store)?;
            let value = expr(alloc, terms, value, store)?;
            operated(alloc, terms, *op, before, value)
        }
    }
}

// Assigns to the element at `at`, which has to be within the array.
fn put_element(
    alloc: Global,
    terms: &mut Terms,
    store: &mut TermStore,
    var: Var,
    at: Judged,
    value: Judged,
) -> Result<Items<u32>, NoMemory>
    requires there { FitStore (length terms.old.ops) store.old }
    requires at_in { FitJudged (length terms.old.ops) at }
    requires value_in { FitJudged (length terms.old.ops) value }
    ensures { IfOk result (λ cs.
        Gives FitEffect (spec.put_element store.old var (held_at store.old var) at value)
        terms.old terms.new (effect_with store.new cs)) }
{
    let slot = held(store, var);
    let ty = held_ty(slot);
    match array_in(slot) {
        None => nowhere(alloc, terms),
        Some(elements) => {
            let inside = within(terms, at.term, elements.len() as u32)?;
            let after = replaced(alloc, terms, at.term, value.term, elements.as_slice())?;
            put_slot(store, var, TermSlot::Numbers(ty, after));
            let mut conditions = value.conditions;
            conditions.push(inside)?;
            joined(at.conditions, conditions)
        }
    }
}

/// Assigns to a scalar or to an element; the index comes before the value.
pub(crate) fn assign(
    alloc: Global,
    terms: &mut Terms,
    place: &Place,
    op: &Option<BinOp>,
    value: &Expr,
    store: &mut TermStore,
) -> Result<Items<u32>, NoMemory>
    requires { FitStore (length terms.old.ops) store.old }
    ensures { IfOk result (λ cs.
        Gives FitEffect (spec.assignment_effect place.now op.now value.now store.old) terms.old terms.new (effect_with store.new cs)) }
{
    match place {
        Place::Scalar(x) => {
            let value = assigned_value(alloc, terms, place, op, value, store)?;
            put_term(store, *x, value.term);
            Ok(value.conditions)
        }
        Place::Elem(x, at) => {
            let at = expr(alloc, terms, at, store)?;
            let value = assigned_value(alloc, terms, place, op, value, store)?;
            put_element(alloc, terms, store, *x, at, value)
        }
    }
}
