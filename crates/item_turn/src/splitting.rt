//! The split of an item at a fork, with the bounds of its children.

ghost use Rattle.std.specs.Prelude.{IfOk};
ghost use Rattle.item_turn.specs.Steps.{IsChild, IsOf, IsOpen};

use crate::step::Open;
use c_tree::NoMemory;
use item_bounds::bound_left;
use lin_rows::Multipliers;
use race_item::{Child, Item, Settlement};
use sqlite_items::Items;
use std::alloc::Global;

/// Splits the item at the fork: each child has the item's cuts and one of the two lists, and the least bound that the
/// multipliers give.
pub(crate) fn split<'p>(
    alloc: Global,
    item: &Item<'p>,
    fork: Open,
    by: &[Multipliers],
    limit: u32,
) -> Result<Settlement<'p>, NoMemory>
    requires { IsOpen item.now fork }
    ensures { IfOk result (λ s. IsOf item.now limit s) }
{
    // The program is well-formed, and the item is one.
    item.rows().plan().program();
    item.bound();
    let Open {
        first,
        second,
        input,
    } = fork;
    let left = child(alloc, item, first, by)?;
    let right = child(alloc, item, second, by)?;
    let mut children = Items::new(alloc);
    children.push(left)?;
    children.push(right)?;
    Ok(Settlement::split(item, children))
}

// The child with this prefix.
fn child<'p>(
    alloc: Global,
    item: &Item<'p>,
    prefix: Items<u16>,
    by: &[Multipliers],
) -> Result<Child, NoMemory>
    ensures { IfOk result (λ c. IsChild item.now prefix c) }
{
    let bound = bound_left(
        alloc,
        item.rows(),
        item.cuts(),
        prefix.as_slice(),
        by,
        item.bound(),
    )?;
    let cuts = Items::from_slice(alloc, item.cuts())?;
    Ok(Child {
        cuts,
        prefix,
        bound,
    })
}
