//! How often edges may still be taken behind a list.

ghost use Rattle.std.specs.Prelude.{◌≡◌, ◌<◌, ◌==◌, min, if◌then◌else◌, length, slice_get, IfOk};
ghost use Rattle.c_tree.specs.Keeping.WellFormed.{WellFormed};
ghost use Rattle.flow_laws.specs.Graphs.{graph, edges};
ghost use Rattle.race_item.specs.Regions.{upper_limit};
ghost use Rattle.race_item.specs.Trials.{AreUpperLimits, IsRoomOf, one_taken, room_after};

use crate::item::Item;
use crate::region::Cut;
use c_tree::NoMemory;
use flow_graph::Plan;
use flow_laws::laws::edges::edges_join_nodes;
use sqlite_items::Items;
use std::alloc::Global;

/// For each edge, how often it may still be taken behind a list: its upper limit in the item's box less the times that
/// it stands in the list. There is no room where the list has an edge more often than its upper limit. `NoMemory` is
/// want of memory.
pub fn room_behind<'p>(
    alloc: Global,
    item: &Item<'p>,
    list: &[u16],
) -> Result<Option<Items<u64>>, NoMemory>
    ensures { IfOk result (λ room. IsRoomOf item.now.rows.plan.program item.now.region.cuts list.now room) }
{
    let limits = upper_limits(alloc, item.rows().plan(), item.cuts())?;
    Ok(take_all(limits, list))
}

fn upper_limits(alloc: Global, plan: &Plan, cuts: &[Cut]) -> Result<Items<u64>, NoMemory>
    ensures { IfOk result (λ limits. AreUpperLimits plan.now.program cuts.now limits) }
{
    // The program is well-formed.
    plan.program();
    let mut limits = Items::new(alloc);
    for e in 0..plan.edges() as u16 {
        limits.push(upper_limit(plan, cuts, e))?;
    }
    Ok(limits)
}

// The least of the edge's cap and the upper limits of the cuts that name it.
fn upper_limit(plan: &Plan, cuts: &[Cut], e: u16) -> u64
    requires formed { WellFormed plan.now.program }
    requires edge { e < length (edges (graph plan.now.program)) }
    ensures { result ≡ upper_limit plan.now.program cuts.now e }
{
    edges_join_nodes();
    let mut most = plan.node(plan.edge(e).from).cap;
    for cut in cuts {
        most = lowered(most, *cut, e);
    }
    most
}

fn lowered(most: u64, cut: Cut, e: u16) -> u64
    ensures { result ≡ (if cut.edge == e then min most cut.hi else most) }
{
    if cut.edge == e {
        most.min(cut.hi)
    } else {
        most
    }
}

// The room that is left behind a list, if there is enough for it.
fn take_all(mut room: Items<u64>, list: &[u16]) -> Option<Items<u64>>
    ensures { result ≡ room_after room list.now }
{
    for e in list {
        room = take(room, *e)?;
    }
    Some(room)
}

fn take(mut room: Items<u64>, e: u16) -> Option<Items<u64>>
    ensures { result ≡ one_taken room e (slice_get room e) }
{
    match room.as_slice().get(e as usize).copied() {
        None => None,
        Some(0) => None,
        Some(left) => {
            room.set(e as usize, left - 1);
            Some(room)
        }
    }
}
