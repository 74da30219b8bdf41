//! Which edges may follow.

ghost use Rattle.std.specs.Prelude.{◌≡◌, ◌<◌, ◌↔◌, true, length};
ghost use Rattle.flow_laws.specs.Graphs.{graph, edges, loops};
ghost use Rattle.path_walk.specs.Steps.{MayTake, IsChosen, step_of_two};

use crate::counters::may_turn;
use flow_graph::{Outs, Plan};

/// No edge may follow, one, or two: the one by `True` first.
#[derive(Clone, Copy)]
pub(crate) enum Step {
    Stuck,
    On(u16),
    Parts(u16, u16),
}

/// The edges that leave the node, have room and keep the loops' bounds.
pub(crate) fn choose(plan: &Plan, room: &[u64], left: &[Option<u32>], at: u32) -> Step
    requires node { at < length (graph plan.now.program) }
    requires rooms { length room.now ≡ length (edges (graph plan.now.program)) }
    requires loops { length left.now ≡ length (loops (graph plan.now.program)) }
    ensures { IsChosen plan.now.program room.now left.now at result }
{
    match plan.outs(at) {
        Outs::Nowhere => Step::Stuck,
        Outs::One(e) => {
            if may_take(plan, room, left, e) {
                Step::On(e)
            } else {
                Step::Stuck
            }
        }
        Outs::Two(yes, no) => step_of_two(
            yes,
            no,
            may_take(plan, room, left, yes),
            may_take(plan, room, left, no),
        ),
    }
}

// Which of two edges may follow.
fn step_of_two(yes: u16, no: u16, by_yes: bool, by_no: bool) -> Step
    ensures { result ≡ step_of_two yes no by_yes by_no }
{
    match (by_yes, by_no) {
        (true, true) => Step::Parts(yes, no),
        (true, false) => Step::On(yes),
        (false, true) => Step::On(no),
        (false, false) => Step::Stuck,
    }
}

// Whether the edge has room and keeps the loops' bounds.
fn may_take(plan: &Plan, room: &[u64], left: &[Option<u32>], e: u16) -> bool
    requires edge { e < length (edges (graph plan.now.program)) }
    requires rooms { length room.now ≡ length (edges (graph plan.now.program)) }
    requires loops { length left.now ≡ length (loops (graph plan.now.program)) }
    ensures { (result ≡ true) ↔ MayTake plan.now.program room.now left.now e }
{
    if room[e as usize] == 0 {
        return false;
    }
    may_turn(plan, left, e)
}
