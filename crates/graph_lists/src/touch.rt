//! The loops that each edge enters or turns, and one pass over a list with a counter for each loop.

ghost use Rattle.std.specs.Prelude.{◌≡◌, ◌≤◌, ◌&&◌, Bool, true, length, IfOk};
ghost use Rattle.std.specs.List.{list_all};
ghost use Rattle.graph_lists.specs.Touches.{
  Counters,
  counters,
  none_entered,
  is_low,
  are_low,
  touch_of,
  touches_of,
  all_touches,
  is_kept_at,
  is_kept_over,
  is_kept_by,
};

use c_tree::NoMemory;
use flow_laws::{Edge, Loop};
use sqlite_items::Items;
use std::alloc::Global;

/// How many loops a plan can have: each has two edges.
const MOST_LOOPS: usize = 1024;

/// What an edge does to a loop, which it tells by the loop's number.
#[derive(Clone, Copy, Debug, PartialEq, Eq)]
pub enum Touch {
    /// It enters the loop, which may then turn so often.
    Enters(u16, u32),
    /// It is the loop's turn.
    Turns(u16),
}

/// What each edge does, in the order of the loops.
pub fn touches_by_edge(
    alloc: Global,
    edges: &[Edge],
    loops: &[Loop],
) -> Result<Items<Items<Touch>>, NoMemory>
    requires edges { length edges.now ≤ 2048 }
    requires loops { length loops.now ≤ 1024 }
    ensures { IfOk result (λ all. all ≡ all_touches loops.now 0 edges.now) }
{
    let mut all = Items::new(alloc);
    for number in 0..edges.len() {
        all.push(touches_of(alloc, number as u16, loops)?)?;
    }
    Ok(all)
}

fn touches_of(alloc: Global, edge: u16, loops: &[Loop]) -> Result<Items<Touch>, NoMemory>
    requires { length loops.now ≤ 1024 }
    ensures { IfOk result (λ touches. touches ≡ touches_of 0 loops.now edge) }
{
    let mut touches = Items::new(alloc);
    for number in 0..loops.len() {
        if let Some(touch) = touch_of(number as u16, &loops[number], edge) {
            touches.push(touch)?;
        }
    }
    Ok(touches)
}

fn touch_of(number: u16, l: &Loop, edge: u16) -> Option<Touch>
    ensures { result ≡ touch_of number l.now edge }
{
    if l.is_entered_by(edge) {
        return Some(Touch::Enters(number, l.most_turns()));
    }
    if edge == l.turn {
        return Some(Touch::Turns(number));
    }
    None
}

/// Whether the list names only edges and keeps each loop's bound. `left` has the turns that are left of each loop, none
/// before the loop is first entered.
pub fn keeps_all(touches: &[Items<Touch>], list: &[u16]) -> bool
    requires { list_all are_low touches.now ≡ true }
    ensures { result ≡ is_kept_by touches.now none_entered list.now }
{
    let mut left: [Option<u32>; MOST_LOOPS] = [None; MOST_LOOPS];
    for number in list {
        let Some(row) = touches.get(*number as usize) else {
            return false;
        };
        if !keep_each(row.as_slice(), &mut left) {
            return false;
        }
    }
    true
}

fn keep_each(row: &[Touch], left: &mut [Option<u32>; MOST_LOOPS]) -> bool
    requires { are_low row.now ≡ true }
    ensures { (go : Counters → Bool) → is_kept_over row.now (counters left.old) go ≡ (result && go (counters left.new)) }
{
    for touch in row {
        if !keep(*touch, left) {
            return false;
        }
    }
    true
}

fn keep(touch: Touch, left: &mut [Option<u32>; MOST_LOOPS]) -> bool
    requires { is_low touch ≡ true }
    ensures { (go : Counters → Bool) → is_kept_at touch (counters left.old) go ≡ (result && go (counters left.new)) }
{
    match touch {
        Touch::Enters(number, turns) => {
            left[number as usize] = Some(turns);
            true
        }
        Touch::Turns(number) => match left[number as usize] {
            None => true,
            Some(0) => false,
            Some(turns) => {
                left[number as usize] = Some(turns - 1);
                true
            }
        },
    }
}
