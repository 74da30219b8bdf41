//! What a store of terms has for a variable, changed in place, and what is defined nowhere (C11 6.2.4, 6.5.16.1).

ghost use Rattle.std.specs.Prelude.{◌≡◌, length, slice_set, option_copied, IfOk};
ghost use Rattle.cond_laws.specs.TermStores as spec;
ghost use Rattle.cond_laws.specs.Conditions.{AllBelow};
ghost use Rattle.term_steps.specs.Gives.{Gives};
ghost use Rattle.term_effects.specs.Parts.{zero_alone};

use bv_term::{Op, Terms};
use c_tree::{NoMemory, Var};
use cond_laws::{TermSlot, TermStore};
use sqlite_items::Items;
use std::alloc::Global;
use term_steps::{held, held_ty, put};

// Puts a slot in the place of the slot number `n`, if there is one.
fn set(slots: &mut Items<TermSlot>, n: u32, slot: TermSlot)
    ensures { slots.new ≡ slice_set slots.old n slot }
{
    let n = n as usize;
    if n < slots.len() {
        slots.set(n, slot);
    }
}

/// Puts a slot in a variable's place, if it has one.
pub(crate) fn put_slot(store: &mut TermStore, var: Var, slot: TermSlot)
    ensures { store.new ≡ spec.with_term_slot store.old var slot }
{
    match var {
        Var::Local(n) => set(&mut store.locals, n, slot),
        Var::Global(n) => set(&mut store.globals, n, slot),
    }
}

/// Takes its value from a local, as a declaration does that is reached (6.2.4 paragraph 6).
pub fn unset_local(local: u32, store: &mut TermStore)
    ensures { store.new ≡ spec.unset_local_term local store.old }
{
    let ty = held_ty(held(store, Var::Local(local)));
    put_slot(store, Var::Local(local), TermSlot::Unset(ty));
}

/// Assigns a term to a scalar, whose type the word is read in (6.5.16.1).
pub fn put_term(store: &mut TermStore, var: Var, term: u32)
    ensures { store.new ≡ spec.put_term store.old var term }
{
    let ty = held_ty(held(store, var));
    put_slot(store, var, TermSlot::Number(ty, term));
}

/// How many elements a slot has.
pub(crate) fn held_length(slot: Option<&TermSlot>) -> usize
    ensures { result ≡ spec.held_length (option_copied slot.entry) }
{
    match slot {
        Some(TermSlot::Numbers(_, elements)) => elements.len(),
        _ => 0,
    }
}

/// The conditions of what is defined nowhere: one term, which is 0. It refuses for want of memory alone.
pub fn nowhere(alloc: Global, terms: &mut Terms) -> Result<Items<u32>, NoMemory>
    ensures { IfOk result (λ cs. Gives AllBelow zero_alone terms.old terms.new cs) }
{
    let zero = put(terms, Op::Const(0))?;
    let mut conditions = Items::new(alloc);
    conditions.push(zero)?;
    Ok(conditions)
}
