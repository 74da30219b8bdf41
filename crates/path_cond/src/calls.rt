//! Calls and their landings (C11 6.5.2.2, 6.8.6.4, 6.9.1).

ghost use Rattle.std.specs.Prelude.{◌≡◌, length, option_copied, IfOk};
ghost use Rattle.cond_laws.specs.Conditions.{AllBelow};
ghost use Rattle.cond_laws.specs.Fits.{FitEffect, FitMemory, FitReturned, FitSlot, FitSlots, FitStore};
ghost use Rattle.cond_laws.specs.Sizes.{AreSmallLocals, HasSmallLength};
ghost use Rattle.cond_laws.specs.TermPaths as spec;
ghost use Rattle.cond_laws.specs.TermStatements.{effect_with};
ghost use Rattle.path_cond.specs.Memories.{memory_of, FitMove};
ghost use Rattle.path_cond.specs.Parts as part;
ghost use Rattle.term_steps.specs.Gives.{Gives};

use crate::memory::Memory;
use bv_term::Terms;
use c_tree::{Expr, Local, NoMemory, Target, Ty, Var};
use cond_laws::{Returned, TermSlot, TermStore};
use sqlite_items::{Items, at as item_at};
use std::alloc::Global;
use std::mem;
use term_effects::{nowhere, put_term, unset_local, zeros};
use term_steps::all_exprs;

// The slot of a local as a call begins.
fn fresh(alloc: Global, terms: &mut Terms, local: &Local) -> Result<TermSlot, NoMemory>
    requires { HasSmallLength local.now.length }
    ensures { IfOk result (λ x. Gives FitSlot (spec.fresh_term_slot local.now.ty local.now.length) terms.old terms.new
        x) }
{
    match local.length {
        None => Ok(TermSlot::Unset(local.ty)),
        Some(count) => {
            let elements = zeros(alloc, terms, count as usize)?;
            Ok(TermSlot::Numbers(local.ty, elements))
        }
    }
}

// The same, of a parameter with its argument, whose word is read in the parameter's type (6.5.2.2 paragraph 7).
fn entry_slot(
    alloc: Global,
    terms: &mut Terms,
    local: &Local,
    given: Option<&u32>,
) -> Result<TermSlot, NoMemory>
    requires small { HasSmallLength local.now.length }
    requires there { part.BelowIfGiven (length terms.old.ops) (option_copied given) }
    ensures { IfOk result (λ x. Gives FitSlot (part.entry_slot local.now (option_copied given.entry))
        terms.old terms.new x) }
{
    match given {
        Some(term) => Ok(TermSlot::Number(local.ty, *term)),
        None => fresh(alloc, terms, local),
    }
}

/// The slots of a function's locals as a call begins; the first have the arguments.
pub(crate) fn entry_slots(
    alloc: Global,
    terms: &mut Terms,
    locals: &[Local],
    given: &[u32],
) -> Result<Items<TermSlot>, NoMemory>
    requires small { AreSmallLocals locals.now }
    requires there { AllBelow (length terms.old.ops) given.now }
    ensures { IfOk result (λ xs. Gives FitSlots (spec.entry_term_slots locals.now given.now) terms.old terms.new xs) }
{
    let mut slots = Items::new(alloc);
    for at in 0..locals.len() {
        let slot = entry_slot(alloc, terms, &locals[at], item_at(given, at))?;
        slots.push(slot)?;
    }
    Ok(slots)
}

// A declaration whose value is the result of a call: its local has no value before.
fn unset_target(target: Target, store: &mut TermStore)
    ensures { store.new ≡ spec.unset_target_term target store.old }
{
    match target {
        Target::Nothing => {}
        Target::Assign(_) => {}
        Target::Declare(local) => unset_local(local, store),
    }
}

/// A call: the arguments are evaluated, and the function begins with them.
pub(crate) fn enter(
    alloc: Global,
    terms: &mut Terms,
    target: Target,
    locals: &[Local],
    args: &[Expr],
    memory: &mut Memory,
) -> Result<Items<u32>, NoMemory>
    requires small { AreSmallLocals locals.now }
    requires there { FitMemory (length terms.old.ops) (memory_of memory.old) }
    ensures { IfOk result (λ cs. Gives FitMove (spec.entry_effect target locals.now args.now (memory_of memory.old))
        terms.old terms.new (effect_with (memory_of memory.new) cs)) }
{
    unset_target(target, &mut memory.store);
    let given = all_exprs(alloc, terms, args, &memory.store)?;
    let slots = entry_slots(alloc, terms, locals, given.terms.as_slice())?;
    let callers = mem::replace(&mut memory.store.locals, slots);
    memory.frames.push(callers)?;
    memory.result = None;
    Ok(given.conditions)
}

// A returned value, whose word is read in the function's type (6.8.6.4 paragraph 3).
fn result_of(ty: Option<Ty>, value: Option<Returned>) -> Option<Returned>
    ensures { result ≡ spec.result_term ty value }
{
    let ty = ty?;
    let value = value?;
    Some(Returned {
        ty,
        term: value.term,
    })
}

// The variable to which the result of a call goes.
fn variable_of(target: Target) -> Option<Var>
    ensures { result ≡ part.variable_of target }
{
    match target {
        Target::Nothing => None,
        Target::Assign(var) => Some(var),
        Target::Declare(local) => Some(Var::Local(local)),
    }
}

// Where the result goes. To use that of a function whose end was reached without `return` is undefined (6.9.1
// paragraph 12).
fn give(
    alloc: Global,
    terms: &mut Terms,
    target: Target,
    value: Option<Returned>,
    store: &mut TermStore,
) -> Result<Items<u32>, NoMemory>
    requires value { FitReturned (length terms.old.ops) value }
    requires there { FitStore (length terms.old.ops) store.old }
    ensures { IfOk result (λ cs. Gives FitEffect (spec.result_effect target value store.old)
        terms.old terms.new (effect_with store.new cs)) }
{
    let Some(var) = variable_of(target) else {
        return Ok(Items::new(alloc));
    };
    let Some(value) = value else {
        return nowhere(alloc, terms);
    };
    put_term(store, var, value.term);
    Ok(Items::new(alloc))
}

/// The landing of a call: the caller's locals are back, and the result goes to its target.
pub(crate) fn land(
    alloc: Global,
    terms: &mut Terms,
    target: Target,
    ty: Option<Ty>,
    memory: &mut Memory,
) -> Result<Items<u32>, NoMemory>
    requires { FitMemory (length terms.old.ops) (memory_of memory.old) }
    ensures { IfOk result (λ cs. Gives FitMove
        (spec.landing_effect target ty (memory_of memory.old).frames (memory_of memory.old))
        terms.old terms.new (effect_with (memory_of memory.new) cs)) }
{
    let Some(locals) = memory.frames.pop() else {
        return nowhere(alloc, terms);
    };
    memory.store.locals = locals;
    let value = result_of(ty, memory.result);
    memory.result = None;
    give(alloc, terms, target, value, &mut memory.store)
}
