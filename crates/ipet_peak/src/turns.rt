//! What the dearest full turns of a part's loops cost.

ghost use Rattle.std.specs.Prelude.{◌≡◌, ◌≤◌, ◌+◌, ◌^◌, ◌++◌, pos, map, IfOk};
ghost use Rattle.peak_laws.specs.Parts as spec;
ghost use Rattle.peak_laws.specs.Magnitudes.{cap_cost, WaysAreAtMost};
ghost use Rattle.ipet_peak.specs.Trees.{part_of, turns_of, KeepsWays};

use crate::tree::{Tree, dearest_ways, step_cost};
use c_tree::NoMemory;
use peak_ways::turn_multiplier;
use sqlite_items::Items;

// What a full turn through a body costs.
fn turn(c: u128, step: u128, body: &Tree) -> i128
    requires c { c ≤ 2 ^ 124 }
    requires step { step ≤ 2 ^ 124 }
    requires keeps { KeepsWays body.now }
    requires body { cap_cost (part_of body.now) ≤ 2 ^ 126 }
    ensures { result ≡ pos (spec.turn_cost (c + step) (spec.way_back (spec.dearest_ways (part_of body.now)))) }
{
    turn_multiplier(c + step, dearest_ways(body))
}

/// Adds the costs of the turns, by the loops' conditions.
#[tactic(auto, using(crate::proofs::TreeLayers::tree_layers))]
pub(crate) fn push_turns(tree: &Tree, out: &mut Items<i128>) -> Result<(), NoMemory>
    requires keeps { KeepsWays tree.now }
    requires light { cap_cost (part_of tree.now) ≤ 2 ^ 126 }
    ensures { IfOk result (λ u. out.new ≡ out.old ++ map pos (turns_of (part_of tree.now))) }
{
    match tree {
        Tree::Nothing => Ok(()),
        Tree::Block(_, _) => Ok(()),
        Tree::Then(_, a, b) => {
            push_turns(a.get(), out)?;
            push_turns(b.get(), out)?;
            Ok(())
        }
        Tree::Choice(_, _, a, b) => {
            push_turns(a.get(), out)?;
            push_turns(b.get(), out)?;
            Ok(())
        }
        Tree::While(_, c, _, step, a) => {
            out.push(turn(u128::from(*c), step_cost(*step), a.get()))?;
            push_turns(a.get(), out)?;
            Ok(())
        }
        Tree::Do(_, c, _, a) => {
            push_turns(a.get(), out)?;
            out.push(turn(u128::from(*c), 0, a.get()))?;
            Ok(())
        }
        Tree::Body(_, a) => {
            push_turns(a.get(), out)?;
            Ok(())
        }
    }
}
