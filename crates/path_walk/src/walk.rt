//! Going on.

ghost use Rattle.std.specs.Prelude.{◌≡◌, ◌<◌, ◌-◌, ℕ, List, true, IfOk, length, slice_index, slice_set};
ghost use Rattle.flow_laws.specs.Graphs.{graph, edges, loops};
ghost use Rattle.flow_laws.specs.Paths.{follows, keeps_each};
ghost use Rattle.path_walk.specs.Walks.{IsAnswer, IsWithin, BeginsAs};
ghost use Rattle.path_walk.specs.Steps.{LeadsTo, fork_of};

use crate::counters::{counters, turn};
use crate::next::Next;
use crate::step::{Step, choose};
use c_tree::NoMemory;
use flow_graph::Plan;
use sqlite_items::Items;
use std::alloc::Global;

/// The node of Exit.
const EXIT: u32 = 1;

/// How many edges a list has at most that goes on.
const MOST: usize = 16_384;

/// The prefix, with each edge that has to follow. `room` has an entry for each edge of the plan: how often it may
/// still be taken, behind the prefix. These rules are tried in this order, again after each edge that is taken:
///
/// 1. Where the list, the prefix included, has 16,385 edges or more, the answer is `Long` with the list.
/// 2. Where the list ends in Exit, the answer is `Whole` with the list, which is a path.
/// 3. Else the edges are looked at that leave the end of the list, still have room and keep the loops' bounds. Where
/// there is none, the answer is `Dead` with the list.
/// 4. Where there are two, the answer is `Fork` with the two extended lists, `True` first.
/// 5. Where there is one, it is taken.
///
/// So each path that begins with the prefix, keeps the loops' bounds and goes no further than the room begins with the
/// list of the answer, or with one of its two; after `Dead` there is none.
///
/// The time is linear in the plan's edges and loops and in the list: at each edge it looks at the loops that the edge
/// enters or turns. The refusal `NoMemory` is want of memory.
pub fn extend(alloc: Global, plan: &Plan, prefix: &[u16], room: &[u64]) -> Result<Next, NoMemory>
    requires contiguous { follows (edges (graph plan.now.program)) prefix.now ≡ true }
    requires kept { keeps_each (loops (graph plan.now.program)) prefix.now ≡ true }
    requires rooms { length room.now ≡ length (edges (graph plan.now.program)) }
    ensures answers { IfOk result (λ next. IsAnswer plan.now.program prefix.now room.now next) }
    ensures covers { IfOk result (λ next. (q : List ℕ) → IsWithin plan.now.program prefix.now room.now q
        → BeginsAs next q) }
{
    // The program is well-formed.
    plan.program();
    let mut list = Items::from_slice(alloc, prefix)?;
    let mut free = Items::from_slice(alloc, room)?;
    let mut left = counters(alloc, plan, prefix)?;
    let mut at = end_of(plan, prefix);
    'going: while list.len() <= MOST {
        if at == EXIT {
            return Ok(Next::Whole(list));
        }
        match choose(plan, free.as_slice(), left.as_slice(), at) {
            Step::Stuck => return Ok(Next::Dead(list)),
            Step::Parts(yes, no) => return fork(alloc, list, yes, no),
            Step::On(e) => {
                list.push(e)?;
                take(&mut free, e);
                turn(plan, &mut left, e);
                at = plan.edge(e).to;
            }
        }
    }
    Ok(Next::Long(list))
}

// The node to which the list leads from Entry.
fn end_of(plan: &Plan, list: &[u16]) -> u32
    requires { follows (edges (graph plan.now.program)) list.now ≡ true }
    ensures { LeadsTo plan.now.program list.now result }
{
    let mut at = 0;
    for e in list {
        at = plan.edge(*e).to;
    }
    at
}

// Takes one from the room of an edge.
fn take(room: &mut Items<u64>, e: u16)
    requires { e < length room.old }
    ensures { room.new ≡ slice_set room.old e (slice_index room.old e - 1) }
{
    let rest = room.as_slice()[e as usize].saturating_sub(1);
    room.set(e as usize, rest);
}

fn fork(alloc: Global, list: Items<u16>, yes: u16, no: u16) -> Result<Next, NoMemory>
    ensures { IfOk result (λ next. next ≡ fork_of list yes no) }
{
    let mut first = Items::from_slice(alloc, list.as_slice())?;
    let mut second = list;
    first.push(yes)?;
    second.push(no)?;
    Ok(Next::Fork(first, second))
}
