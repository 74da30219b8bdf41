//! Folding.

ghost use Rattle.std.specs.Prelude.{◌<◌, IfOk, length};
ghost use Rattle.bv_fold.specs.Folding.{IsExtended, IsFold};

use crate::folds::Folds;
use bv_term::Terms;
use c_tree::NoMemory;
use std::alloc::Global;

/// A term of the same value at every input that fits the store, which is a constant where no input stands below the
/// term. Terms that were there keep their numbers. `NoMemory` is want of memory, also where the store is full; then too
/// only further terms may stand in it. It goes once through the terms up to this one.
pub fn fold(alloc: Global, terms: &mut Terms, term: u32) -> Result<u32, NoMemory>
    requires { term < length terms.old.ops }
    ensures kept { IsExtended terms.old terms.new }
    ensures folded { IfOk result (λ t. IsFold terms.old terms.new term t) }
{
    Folds::new(alloc).fold(terms, term)
}
