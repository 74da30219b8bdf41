//! Counters of the turns that are left of each loop.

ghost use Rattle.std.specs.Prelude.{◌≡◌, ◌<◌, ◌↔◌, ℕ, None, true, IfOk, length};
ghost use Rattle.std.specs.List.{list_all};
ghost use Rattle.flow_laws.specs.Graphs.{graph, edges, loops};
ghost use Rattle.flow_laws.specs.Paths.{follows, one_less, has_turn};
ghost use Rattle.path_walk.specs.Counters.{
  left_of,
  is_below,
  may_touch,
  after_touch,
  after_touches,
  MayTurn,
  AreOn,
  AreAfter,
};

use c_tree::NoMemory;
use flow_graph::{Plan, Touch};
use sqlite_items::Items;
use std::alloc::Global;

/// The counters behind a list, of which a loop has none before it is first entered.
pub(crate) fn counters(
    alloc: Global,
    plan: &Plan,
    list: &[u16],
) -> Result<Items<Option<u32>>, NoMemory>
    requires { follows (edges (graph plan.now.program)) list.now ≡ true }
    ensures { IfOk result (λ left. AreAfter (loops (graph plan.now.program)) list.now left) }
{
    let mut left = none_entered(alloc, plan.loops().len())?;
    for e in list {
        turn(plan, &mut left, *e);
    }
    Ok(left)
}

fn none_entered(alloc: Global, loops: usize) -> Result<Items<Option<u32>>, NoMemory>
    ensures many { IfOk result (λ left. length left ≡ loops) }
    ensures none { IfOk result (λ left. (k : ℕ) → left_of left k ≡ None) }
{
    let mut left = Items::new(alloc);
    for k in 0..loops {
        left.push(None)?;
    }
    Ok(left)
}

/// Puts in the counters behind one edge more.
pub(crate) fn turn(plan: &Plan, left: &mut Items<Option<u32>>, e: u16)
    requires edge { e < length (edges (graph plan.now.program)) }
    requires loops { length left.old ≡ length (loops (graph plan.now.program)) }
    ensures { AreOn (loops (graph plan.now.program)) e left.old left.new }
{
    count_each(plan.touches(e), left);
}

fn count_each(touches: &[Touch], left: &mut Items<Option<u32>>)
    requires { list_all (is_below (length left.old)) touches.now ≡ true }
    ensures { left.new ≡ after_touches left.old touches.now }
{
    for touch in touches {
        count(*touch, left);
    }
}

fn count(touch: Touch, left: &mut Items<Option<u32>>)
    requires { is_below (length left.old) touch ≡ true }
    ensures { left.new ≡ after_touch left.old touch }
{
    match touch {
        Touch::Enters(number, turns) => left.set(number as usize, Some(turns)),
        Touch::Turns(number) => {
            let turns = one_less(left.as_slice()[number as usize]);
            left.set(number as usize, turns);
        }
    }
}

fn one_less(left: Option<u32>) -> Option<u32>
    ensures { result ≡ one_less left }
{
    let turns = left?;
    Some(turns.saturating_sub(1))
}

/// Whether the edge keeps the bound of each loop.
pub(crate) fn may_turn(plan: &Plan, left: &[Option<u32>], e: u16) -> bool
    requires edge { e < length (edges (graph plan.now.program)) }
    requires loops { length left.now ≡ length (loops (graph plan.now.program)) }
    ensures { (result ≡ true) ↔ MayTurn (loops (graph plan.now.program)) left.now e }
{
    may_touch_each(plan.touches(e), left)
}

fn may_touch_each(touches: &[Touch], left: &[Option<u32>]) -> bool
    requires { list_all (is_below (length left.now)) touches.now ≡ true }
    ensures { result ≡ list_all (may_touch left.now) touches.now }
{
    for touch in touches {
        if !may_touch(*touch, left) {
            return false;
        }
    }
    true
}

fn may_touch(touch: Touch, left: &[Option<u32>]) -> bool
    requires { is_below (length left.now) touch ≡ true }
    ensures { result ≡ may_touch left.now touch }
{
    match touch {
        Touch::Enters(_, _) => true,
        Touch::Turns(number) => has_turn(left[number as usize]),
    }
}

fn has_turn(left: Option<u32>) -> bool
    ensures { result ≡ has_turn left }
{
    match left {
        None => true,
        Some(turns) => turns > 0,
    }
}
