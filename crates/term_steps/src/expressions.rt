//! The terms of expressions (C11 6.5).

ghost use Rattle.std.specs.Prelude.{◌≡◌, length, IfOk};
ghost use Rattle.cond_laws.specs.TermExpressions as spec;
ghost use Rattle.cond_laws.specs.Fits.{FitJudged, FitListed, FitStore};
ghost use Rattle.term_steps.specs.Gives.{Gives};

use crate::elements::{element, held, named};
use crate::operands::{chosen, operated, with_unary};
use crate::putting::{put, sure};
use bv_term::{Op, Terms};
use c_tree::{Expr, NoMemory, Ty};
use cond_laws::{Judged, Listed, TermStore};
use sqlite_items::Items;
use std::alloc::Global;

/// The value of an expression in a store of terms. It puts the terms of the operands from left to right, and before
/// those of their operator. It refuses for want of memory alone; then further terms may stand in the store of terms.
pub fn expr(
    alloc: Global,
    terms: &mut Terms,
    e: &Expr,
    store: &TermStore,
) -> Result<Judged, NoMemory>
    requires { FitStore (length terms.old.ops) store.now }
    ensures { IfOk result (λ j. Gives FitJudged (spec.expr_term e.now store.now) terms.old terms.new j) }
{
    match e {
        Expr::Num(ty, n) => {
            let term = put(terms, Op::Const(*n))?;
            Ok(sure(alloc, *ty, term))
        }
        Expr::Name(x) => named(alloc, terms, held(store, *x)),
        Expr::Elem(x, at) => {
            let at = expr(alloc, terms, at.get(), store)?;
            element(terms, held(store, *x), at)
        }
        Expr::Un(op, a) => {
            let a = expr(alloc, terms, a.get(), store)?;
            with_unary(alloc, terms, *op, a)
        }
        Expr::Cast(ty, a) => {
            let a = expr(alloc, terms, a.get(), store)?;
            Ok(cast(*ty, a))
        }
        Expr::Bin(op, a, b) => {
            let a = expr(alloc, terms, a.get(), store)?;
            let b = expr(alloc, terms, b.get(), store)?;
            operated(alloc, terms, *op, a, b)
        }
        Expr::Cond(c, a, b) => {
            let c = expr(alloc, terms, c.get(), store)?;
            let a = expr(alloc, terms, a.get(), store)?;
            let b = expr(alloc, terms, b.get(), store)?;
            chosen(alloc, terms, c, a, b)
        }
    }
}

// A value whose word is read in another type.
fn cast(ty: Ty, value: Judged) -> Judged
    ensures { result ≡ record { ty = ty; term = value.term; conditions = value.conditions } }
{
    Judged {
        ty,
        term: value.term,
        conditions: value.conditions,
    }
}

/// The values of a list of expressions, one after the other.
pub fn all_exprs(
    alloc: Global,
    terms: &mut Terms,
    exprs: &[Expr],
    store: &TermStore,
) -> Result<Listed, NoMemory>
    requires { FitStore (length terms.old.ops) store.now }
    ensures { IfOk result (λ l. Gives FitListed (spec.all_exprs exprs.now store.now) terms.old terms.new l) }
{
    let mut values = Items::new(alloc);
    let mut conditions = Items::new(alloc);
    for e in exprs {
        let value = expr(alloc, terms, e, store)?;
        values.push(value.term)?;
        conditions.append(value.conditions)?;
    }
    Ok(Listed {
        terms: values,
        conditions,
    })
}
