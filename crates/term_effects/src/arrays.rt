//! The elements of arrays that are assigned or declared (C11 6.5.2.1, 6.7.9).

ghost use Rattle.std.specs.Prelude.{◌≡◌, ◌<◌, ◌^◌, length, IfOk};
ghost use Rattle.cond_laws.specs.TermStores as spec;
ghost use Rattle.cond_laws.specs.Conditions.{AllBelow};
ghost use Rattle.cond_laws.specs.Fits.{AsMany};
ghost use Rattle.term_steps.specs.Gives.{Gives};

use bv_term::{Op, Terms};
use c_tree::NoMemory;
use sqlite_items::Items;
use std::alloc::Global;
use term_steps::{one_pick, put};

/// The elements after `value` is assigned to the one at `at`; outside the array each stays.
pub(crate) fn replaced(
    alloc: Global,
    terms: &mut Terms,
    at: u32,
    value: u32,
    elements: &[u32],
) -> Result<Items<u32>, NoMemory>
    requires at_in { at < length terms.old.ops }
    requires value_in { value < length terms.old.ops }
    requires elements_in { AllBelow (length terms.old.ops) elements.now }
    requires few { length elements.now < 2 ^ 32 }
    ensures { IfOk result (λ ns.
        Gives (AsMany (length elements.now)) (spec.elements_after at 0 value elements.now) terms.old terms.new ns) }
{
    let mut after = Items::new(alloc);
    for index in 0..elements.len() {
        let element = one_pick(terms, at, index as u32, value, elements[index])?;
        after.push(element)?;
    }
    Ok(after)
}

/// So many terms that are 0. It refuses for want of memory alone; then some of them may stand in the store of terms.
pub fn zeros(alloc: Global, terms: &mut Terms, count: usize) -> Result<Items<u32>, NoMemory>
    ensures { IfOk result (λ ns. Gives (AsMany count) (spec.zero_terms count) terms.old terms.new ns) }
{
    let mut list = Items::new(alloc);
    for _index in 0..count {
        let zero = put(terms, Op::Const(0))?;
        list.push(zero)?;
    }
    Ok(list)
}
