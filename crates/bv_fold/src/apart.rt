//! Folded terms in a store of their own.

ghost use Rattle.std.specs.Prelude.{IfOk, length};
ghost use Rattle.bv_fold.specs.Folding.{IsExtended};
ghost use Rattle.bv_fold.specs.Gathered.{AreSameIn, IsGathered};
ghost use Rattle.bv_fold.specs.Steps.{AreBelow};

use crate::folds::Folds;
use crate::gathering::{Gathered, gather};
use bv_term::Terms;
use c_tree::NoMemory;
use sqlite_items::Items;
use std::alloc::Global;

/// Folds the wanted terms, and puts their folds into a store of their own over the same inputs, with nothing but what
/// stands below them. There each has the same word at every input that fits. `NoMemory` is want of memory, also where a
/// store is full.
pub fn fold_apart(alloc: Global, terms: Terms, wanted: &[u32]) -> Result<Gathered, NoMemory>
    requires { AreBelow (length terms.ops) wanted.now }
    ensures { IfOk result (λ g. IsGathered terms wanted.now g) }
{
    let mut terms = terms;
    let folds = fold_each(alloc, &mut terms, wanted)?;
    gather(alloc, &terms, folds.as_slice())
}

// The folds of the wanted terms. Each term is folded once.
fn fold_each(alloc: Global, terms: &mut Terms, wanted: &[u32]) -> Result<Items<u32>, NoMemory>
    requires { AreBelow (length terms.old.ops) wanted.now }
    ensures kept { IsExtended terms.old terms.new }
    ensures same { IfOk result (λ folds. AreSameIn terms.old terms.new wanted.now folds) }
{
    let mut folds = Folds::new(alloc);
    let mut numbers = Items::new(alloc);
    for term in wanted {
        let number = folds.fold(terms, *term)?;
        numbers.push(number)?;
    }
    Ok(numbers)
}
