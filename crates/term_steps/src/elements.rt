//! The terms of names and of array elements (C11 6.5.1, 6.5.2.1).

ghost use Rattle.std.specs.Prelude.{◌≡◌, ◌<◌, ◌^◌, length, IfOk, option_copied};
ghost use Rattle.cond_laws.specs.TermStores as spec;
ghost use Rattle.cond_laws.specs.Conditions.{AllBelow};
ghost use Rattle.cond_laws.specs.Fits.{Below, FitHeld, FitJudged};
ghost use Rattle.term_steps.specs.Gives.{Gives};
ghost use Rattle.term_steps.specs.Parts.{array_element, array_in, no_element, one_pick};

use crate::putting::{never, put, sure};
use bv_term::{Op, Terms};
use c_tree::{NoMemory, Ty, Var};
use cond_laws::{Judged, TermSlot, TermStore};
use sqlite_items::Items;
use std::alloc::Global;

/// What a store has for a variable.
pub fn held(store: &TermStore, var: Var) -> Option<&TermSlot>
    ensures { option_copied result ≡ spec.held_at store.now var }
{
    match var {
        Var::Local(n) => store.locals.get(n as usize),
        Var::Global(n) => store.globals.get(n as usize),
    }
}

/// The type of a slot, which is `int` where there is none.
pub fn held_ty(slot: Option<&TermSlot>) -> Ty
    ensures { result ≡ spec.held_ty (option_copied slot.entry) }
{
    match slot {
        None => Ty::Int,
        Some(TermSlot::Unset(ty)) => *ty,
        Some(TermSlot::Number(ty, _)) => *ty,
        Some(TermSlot::Numbers(ty, _)) => *ty,
    }
}

/// The elements of a slot that is an array and has them.
pub fn array_in(slot: Option<&TermSlot>) -> Option<&Items<u32>>
    ensures { option_copied result ≡ array_in (option_copied slot.entry) }
{
    match slot {
        None => None,
        Some(TermSlot::Unset(_)) => None,
        Some(TermSlot::Number(_, _)) => None,
        Some(TermSlot::Numbers(_, elements)) => Some(elements),
    }
}

/// A scalar, which is undefined where it is unset.
pub fn named(alloc: Global, terms: &mut Terms, slot: Option<&TermSlot>) -> Result<Judged, NoMemory>
    requires { FitHeld (length terms.old.ops) (option_copied slot) }
    ensures { IfOk result (λ j. Gives FitJudged (spec.scalar_term (option_copied slot.entry)) terms.old terms.new j) }
{
    match slot {
        Some(TermSlot::Number(ty, term)) => Ok(sure(alloc, *ty, *term)),
        None => never(alloc, terms, Ty::Int),
        Some(TermSlot::Unset(ty)) => never(alloc, terms, *ty),
        Some(TermSlot::Numbers(ty, _)) => never(alloc, terms, *ty),
    }
}

/// `element` where the index `at` is the number `index`, and else `other`.
pub fn one_pick(
    terms: &mut Terms,
    at: u32,
    index: u32,
    element: u32,
    other: u32,
) -> Result<u32, NoMemory>
    requires at_in { at < length terms.old.ops }
    requires element_in { element < length terms.old.ops }
    requires other_in { other < length terms.old.ops }
    ensures { IfOk result (λ t. Gives Below (one_pick at index element other) terms.old terms.new t) }
{
    let index = put(terms, Op::Const(index))?;
    let here = put(terms, Op::Eq(at, index))?;
    put(terms, Op::Ite(here, element, other))
}

// The element at `at`, and `other` outside the array.
fn picked(terms: &mut Terms, at: u32, other: u32, elements: &[u32]) -> Result<u32, NoMemory>
    requires at_in { at < length terms.old.ops }
    requires other_in { other < length terms.old.ops }
    requires elements_in { AllBelow (length terms.old.ops) elements.now }
    requires few { length elements.now < 2 ^ 32 }
    ensures { IfOk result (λ t. Gives Below (spec.element_choice at 0 other elements.now) terms.old terms.new t) }
{
    let mut chosen = other;
    for index in 0..elements.len() {
        chosen = one_pick(terms, at, index as u32, elements[index], chosen)?;
    }
    Ok(chosen)
}

/// Nonzero where an index is within an array of so many elements.
pub fn within(terms: &mut Terms, at: u32, count: u32) -> Result<u32, NoMemory>
    requires { at < length terms.old.ops }
    ensures { IfOk result (λ t. Gives Below (spec.index_condition at count) terms.old terms.new t) }
{
    let count = put(terms, Op::Const(count))?;
    put(terms, Op::LtU(at, count))
}

// An element of an array with these elements.
fn element_of(
    terms: &mut Terms,
    ty: Ty,
    elements: &Items<u32>,
    at: Judged,
) -> Result<Judged, NoMemory>
    requires at_in { FitJudged (length terms.old.ops) at }
    requires elements_in { AllBelow (length terms.old.ops) elements.now }
    requires few { length elements.now < 2 ^ 32 }
    ensures { IfOk result (λ j. Gives FitJudged (array_element ty elements.now at) terms.old terms.new j) }
{
    let zero = put(terms, Op::Const(0))?;
    let value = picked(terms, at.term, zero, elements.as_slice())?;
    let inside = within(terms, at.term, elements.len() as u32)?;
    let mut conditions = at.conditions;
    conditions.push(inside)?;
    Ok(Judged {
        ty,
        term: value,
        conditions,
    })
}

// An element of what is no array that has elements.
fn no_element(terms: &mut Terms, ty: Ty, at: Judged) -> Result<Judged, NoMemory>
    requires { FitJudged (length terms.old.ops) at }
    ensures { IfOk result (λ j. Gives FitJudged (no_element ty at) terms.old terms.new j) }
{
    let zero = put(terms, Op::Const(0))?;
    let mut conditions = at.conditions;
    conditions.push(zero)?;
    Ok(Judged {
        ty,
        term: zero,
        conditions,
    })
}

/// `a[at]`, which is undefined outside the array.
pub fn element(terms: &mut Terms, slot: Option<&TermSlot>, at: Judged) -> Result<Judged, NoMemory>
    requires slot_in { FitHeld (length terms.old.ops) (option_copied slot) }
    requires at_in { FitJudged (length terms.old.ops) at }
    ensures { IfOk result (λ j. Gives FitJudged (spec.element_term (option_copied slot.entry) at) terms.old terms.new
        j) }
{
    let ty = held_ty(slot);
    match array_in(slot) {
        Some(elements) => element_of(terms, ty, elements, at),
        None => no_element(terms, ty, at),
    }
}
