//! Simple statements: declarations without a call, and assignments (C11 6.5.16, 6.7.9).

ghost use Rattle.std.specs.Prelude.{◌≡◌, ◌≤◌, ◌^◌, length, IfOk};
ghost use Rattle.cond_laws.specs.TermStatements as spec;
ghost use Rattle.cond_laws.specs.TermStatements.{effect_with};
ghost use Rattle.cond_laws.specs.Fits.{FitEffect, FitStore};
ghost use Rattle.cond_laws.specs.Sizes.{HasSmallList, HaveSmallLists};
ghost use Rattle.term_steps.specs.Gives.{Gives};

use crate::arrays::zeros;
use crate::assignments::assign;
use crate::slots::{held_length, nowhere, put_slot, put_term, unset_local};
use bv_term::Terms;
use c_tree::{Expr, NoMemory, Stmt, Var};
use cond_laws::{TermSlot, TermStore};
use sqlite_items::Items;
use std::alloc::Global;
use term_steps::{all_exprs, expr, held, held_ty, joined};

// The declaration of a scalar, which has no value while its initialiser is evaluated.
fn declare(
    alloc: Global,
    terms: &mut Terms,
    local: u32,
    initial: &Option<Expr>,
    store: &mut TermStore,
) -> Result<Items<u32>, NoMemory>
    requires { FitStore (length terms.old.ops) store.old }
    ensures { IfOk result (λ cs.
        Gives FitEffect (spec.simple_effect (Stmt.Scalar local initial.now) store.old)
        terms.old terms.new (effect_with store.new cs)) }
{
    unset_local(local, store);
    match initial {
        None => Ok(Items::new(alloc)),
        Some(initial) => {
            let value = expr(alloc, terms, initial, store)?;
            put_term(store, Var::Local(local), value.term);
            Ok(value.conditions)
        }
    }
}

// The declaration of an array, which keeps its type and length, and has no value while its list is evaluated; 0 stands
// after the list (6.7.9 paragraphs 19 and 21).
fn declare_array(
    alloc: Global,
    terms: &mut Terms,
    local: u32,
    list: &[Expr],
    store: &mut TermStore,
) -> Result<Items<u32>, NoMemory>
    requires there { FitStore (length terms.old.ops) store.old }
    requires few { length list.now ≤ 2 ^ 31 }
    ensures { IfOk result (λ cs.
        Gives FitEffect (spec.simple_effect (Stmt.Array local list.now) store.old) terms.old terms.new (effect_with store.new cs)) }
{
    let slot = held(store, Var::Local(local));
    let ty = held_ty(slot);
    let length = held_length(slot);
    unset_local(local, store);
    let values = all_exprs(alloc, terms, list, store)?;
    let missing = length.saturating_sub(values.terms.len());
    let rest = zeros(alloc, terms, missing)?;
    let elements = joined(values.terms, rest)?;
    put_slot(store, Var::Local(local), TermSlot::Numbers(ty, elements));
    Ok(values.conditions)
}

// Runs a simple statement; any other is defined nowhere.
fn simple(
    alloc: Global,
    terms: &mut Terms,
    statement: &Stmt,
    store: &mut TermStore,
) -> Result<Items<u32>, NoMemory>
    requires there { FitStore (length terms.old.ops) store.old }
    requires small { HasSmallList statement.now }
    ensures { IfOk result (λ cs.
        Gives FitEffect (spec.simple_effect statement.now store.old) terms.old terms.new (effect_with store.new cs)) }
{
    match statement {
        Stmt::Empty => Ok(Items::new(alloc)),
        Stmt::Scalar(local, initial) => declare(alloc, terms, *local, initial, store),
        Stmt::Array(local, list) => declare_array(alloc, terms, *local, list.as_slice(), store),
        Stmt::Assign(place, op, value) => assign(alloc, terms, place, op, value, store),
        _ => nowhere(alloc, terms),
    }
}

/// Runs a node's statements one after the other on a store of terms, and answers the terms that are all nonzero exactly
/// where they are defined. Each term of the store is one of `terms`; no list of a declaration has more than 2^31
/// expressions, as in every well-formed program. The conditions stand in the order of the statements, and those of an
/// index before those of the value. It refuses for want of memory alone, also where `terms` is full; then nothing is
/// said of the store, and further terms may stand in `terms`.
pub fn all_simple(
    alloc: Global,
    terms: &mut Terms,
    statements: &[Stmt],
    store: &mut TermStore,
) -> Result<Items<u32>, NoMemory>
    requires there { FitStore (length terms.old.ops) store.old }
    requires small { HaveSmallLists statements.now }
    ensures { IfOk result (λ cs.
        Gives FitEffect (spec.simple_effects statements.now store.old) terms.old terms.new (effect_with store.new cs)) }
{
    let mut conditions = Items::new(alloc);
    for statement in statements {
        let more = simple(alloc, terms, statement, store)?;
        conditions.append(more)?;
    }
    Ok(conditions)
}
