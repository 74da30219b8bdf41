//! A split at the next fork of an item.

ghost use Rattle.std.specs.Prelude.{◌≡◌, ◌↔◌, true, IsTrue, IfOk, IfSome, IfNone, MatchOption};
ghost use Rattle.flow_laws.specs.Graphs.{graph, edges};
ghost use Rattle.flow_laws.specs.Paths.{follows};
ghost use Rattle.path_walk.specs.declared.next.Next.TheVariants.{Fork};
ghost use Rattle.race_item.specs.Trials.{IsSplitByFork, SplitsNowhere, HasNoFork, IsOnlyFork, IsNoFork};
ghost use Rattle.race_item.specs.Trials.{IsLightAndDriven};

use crate::item::Item;
use crate::region::{Child, Cut};
use crate::room::room_behind;
use crate::settlement::Settlement;
use c_tree::{Input, NoMemory};
use flow_graph::Plan;
use path_search::is_driven_by;
use path_walk::{Next, extend};
use path_weight::weight;
use sqlite_items::Items;
use std::alloc::Global;

/// A list above this weight is not decided.
pub(crate) const MOST_WEIGHT: u64 = 262_144;

/// Splits an item at its next fork, which the input drives. The fork is the two lists that `path_walk::extend` gives
/// from the item's prefix, where an edge has as much room as its upper limit in the item's box leaves behind the
/// prefix; its stem is what both are without their last edges. The two children have the item's box and bound and, in
/// this order, the two lists.
///
/// There is none exactly where the prefix breaks a loop's bound or has an edge more often than its upper limit, where
/// `extend` gives no fork, where the stem weighs more than 262,144, or where the input does not fit or does not drive
/// the stem. `NoMemory` is want of memory.
pub fn by_fork<'p>(
    alloc: Global,
    item: &Item<'p>,
    input: &Input,
) -> Result<Option<Settlement<'p>>, NoMemory>
    ensures item { IfOk result (λ o. IfSome o (λ s. s.item ≡ item.now)) }
    ensures split { IfOk result (λ o. IfSome o
        (λ s. IsSplitByFork item.now.rows.plan.program item.now.region input.now s.conclusion)) }
    ensures none { IfOk result (λ o. IfNone o (SplitsNowhere item.now.rows.plan.program item.now.region input.now)) }
{
    match next_fork(alloc, item)? {
        None => Ok(None),
        Some((first, second)) => split_at(alloc, item, input, first, second),
    }
}

// The two lists of the item's fork.
fn next_fork<'p>(
    alloc: Global,
    item: &Item<'p>,
) -> Result<Option<(Items<u16>, Items<u16>)>, NoMemory>
    ensures { IfOk result (λ o. MatchOption o (HasNoFork item.now.rows.plan.program item.now.region)
        (λ lists. IsOnlyFork item.now.rows.plan.program item.now.region lists.0 lists.1)) }
{
    let plan = item.rows().plan();
    // The prefix is contiguous from Entry.
    item.bound();
    if !plan.keeps(item.prefix()) {
        return Ok(None);
    }
    match room_behind(alloc, item, item.prefix())? {
        None => Ok(None),
        Some(room) => {
            let next = extend(alloc, plan, item.prefix(), room.as_slice())?;
            Ok(forked(next))
        }
    }
}

// The two lists of a fork.
fn forked(next: Next) -> Option<(Items<u16>, Items<u16>)>
    ensures { MatchOption result (IsNoFork next) (λ lists. next ≡ Fork lists.0 lists.1) }
{
    match next {
        Next::Fork(first, second) => Some((first, second)),
        Next::Long(_) | Next::Whole(_) | Next::Dead(_) => None,
    }
}

// The split at these two lists, where the input drives what they share.
fn split_at<'p>(
    alloc: Global,
    item: &Item<'p>,
    input: &Input,
    first: Items<u16>,
    second: Items<u16>,
) -> Result<Option<Settlement<'p>>, NoMemory>
    requires { IsOnlyFork item.now.rows.plan.program item.now.region first second }
    ensures item { IfOk result (λ o. IfSome o (λ s. s.item ≡ item.now)) }
    ensures split { IfOk result (λ o. IfSome o
        (λ s. IsSplitByFork item.now.rows.plan.program item.now.region input.now s.conclusion)) }
    ensures none { IfOk result (λ o. IfNone o (SplitsNowhere item.now.rows.plan.program item.now.region input.now)) }
{
    let stem = &first.as_slice()[..first.len() - 1];
    if !drives(alloc, item.rows().plan(), stem, input)? {
        return Ok(None);
    }
    let bound = item.bound();
    let left = child(alloc, item.cuts(), first, bound)?;
    let right = child(alloc, item.cuts(), second, bound)?;
    let mut children = Items::new(alloc);
    children.push(left)?;
    children.push(right)?;
    Ok(Some(Settlement::split(item, children)))
}

/// Whether the list is within the limit of weight, and the input fits and drives it.
pub(crate) fn drives(
    alloc: Global,
    plan: &Plan,
    list: &[u16],
    input: &Input,
) -> Result<bool, NoMemory>
    requires { follows (edges (graph plan.now.program)) list.now ≡ true }
    ensures { IfOk result (λ is. IsTrue is ↔ IsLightAndDriven plan.now.program list.now input.now) }
{
    if weight(plan, list) > MOST_WEIGHT {
        return Ok(false);
    }
    is_driven_by(alloc, plan, list, input)
}

fn child(alloc: Global, cuts: &[Cut], prefix: Items<u16>, bound: u128) -> Result<Child, NoMemory>
    ensures { IfOk result (λ c. c ≡ record { cuts = cuts.now; prefix = prefix; bound = bound }) }
{
    let cuts = Items::from_slice(alloc, cuts)?;
    Ok(Child {
        cuts,
        prefix,
        bound,
    })
}
