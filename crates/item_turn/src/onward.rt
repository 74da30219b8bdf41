//! Going on along the paths of an item, as far as they go the same way.

ghost use Rattle.std.specs.Prelude.{◌≡◌, IfOk};
ghost use Rattle.item_turn.specs.Stretches.{IsOnward, IsStretch, onward_of};

use c_tree::NoMemory;
use path_walk::{Next, extend};
use race_item::{Item, room_behind};
use sqlite_items::Items;
use std::alloc::Global;

/// To where the paths of an item go on together, behind a list.
#[derive(Drop)]
pub(crate) enum Onward {
    /// There is no such path.
    Nowhere,
    /// They are this path alone.
    Path(Items<u16>),
    /// They part here: the list so far, with one edge and with the other.
    Fork(Items<u16>, Items<u16>),
    /// They begin with this list, which is too heavy to be decided.
    Long(Items<u16>),
}

/// Goes on behind a list with which all driven paths of the item begin.
pub(crate) fn go_on<'p>(alloc: Global, item: &Item<'p>, list: &[u16]) -> Result<Onward, NoMemory>
    requires { IsStretch item.now.rows.plan.program item.now.region list.now }
    ensures { IfOk result (λ on. IsOnward item.now.rows.plan item.now.region list.now on) }
{
    let plan = item.rows().plan();
    // The program is well-formed.
    plan.program();
    if !plan.keeps(list) {
        return Ok(Onward::Nowhere);
    }
    let room = match room_behind(alloc, item, list)? {
        None => return Ok(Onward::Nowhere),
        Some(room) => room,
    };
    let next = extend(alloc, plan, list, room.as_slice())?;
    Ok(onward_of(next))
}

fn onward_of(next: Next) -> Onward
    ensures { result ≡ onward_of next }
{
    match next {
        Next::Dead(_) => Onward::Nowhere,
        Next::Whole(path) => Onward::Path(path),
        Next::Fork(first, second) => Onward::Fork(first, second),
        Next::Long(front) => Onward::Long(front),
    }
}
