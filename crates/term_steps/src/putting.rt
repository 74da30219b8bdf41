//! Putting into a store of terms that may be full, and values made of terms.

ghost use Rattle.std.specs.Prelude.{◌≡◌, ◌++◌, ◌∷◌, [], length, IfOk};
ghost use Rattle.bv_term.specs.Stores.{FitsOp};
ghost use Rattle.bv_term.specs.Scripts as script;
ghost use Rattle.cond_laws.specs.Fits.{Below, FitJudged};
ghost use Rattle.cond_laws.specs.Judged as judged;
ghost use Rattle.term_steps.specs.Gives.{Gives};

use bv_term::{Op, Terms};
use c_tree::{NoMemory, Ty};
use cond_laws::Judged;
use sqlite_items::Items;
use std::alloc::Global;

/// Puts an operator and gives its number. It refuses for want of memory alone, also where the store is full; the store
/// then has the terms that it had.
pub fn put(terms: &mut Terms, op: Op) -> Result<u32, NoMemory>
    requires { FitsOp (length terms.old.inputs) (length terms.old.ops) op }
    ensures { IfOk result (λ t. Gives Below (script.put op) terms.old terms.new t) }
{
    if terms.len() == u32::MAX {
        return Err(NoMemory);
    }
    terms.put(op)
}

/// A value that is defined everywhere.
pub fn sure(alloc: Global, ty: Ty, term: u32) -> Judged
    ensures { result ≡ judged.sure ty term }
{
    Judged {
        ty,
        term,
        conditions: Items::new(alloc),
    }
}

/// A value with one condition.
pub fn given_one(alloc: Global, ty: Ty, term: u32, condition: u32) -> Result<Judged, NoMemory>
    ensures { IfOk result (λ j. j ≡ judged.judged_term ty term (condition ∷ [])) }
{
    let mut conditions = Items::new(alloc);
    conditions.push(condition)?;
    Ok(Judged {
        ty,
        term,
        conditions,
    })
}

/// A value with two conditions.
pub fn given_two(
    alloc: Global,
    ty: Ty,
    term: u32,
    first: u32,
    second: u32,
) -> Result<Judged, NoMemory>
    ensures { IfOk result (λ j. j ≡ judged.judged_term ty term (first ∷ second ∷ [])) }
{
    let mut conditions = Items::new(alloc);
    conditions.push(first)?;
    conditions.push(second)?;
    Ok(Judged {
        ty,
        term,
        conditions,
    })
}

/// A value that is defined nowhere.
pub fn never(alloc: Global, terms: &mut Terms, ty: Ty) -> Result<Judged, NoMemory>
    ensures { IfOk result (λ j. Gives FitJudged (judged.never ty) terms.old terms.new j) }
{
    let zero = put(terms, Op::Const(0))?;
    given_one(alloc, ty, zero, zero)
}
