//! The dearest costs from each node on to the end.

ghost use Rattle.std.specs.Prelude.{◌≡◌, ◌≤◌, ◌<◌, ◌+◌, ◌^◌, ◌++◌, ◌∷◌, [], pos, map, IfOk};
ghost use Rattle.flow_laws.specs.Sites as sites;
ghost use Rattle.peak_laws.specs.Parts as spec;
ghost use Rattle.peak_laws.specs.Magnitudes.{cap_cost, excess};
ghost use Rattle.ipet_peak.specs.Trees.{part_of, cost_targets, greatest_target, KeepsWays};

use crate::ahead::{CostsAhead, ahead, all_to, body_of, dearest_cost, larger, with_next};
use crate::tree::{Tree, dearest_ways, step_cost};
use c_tree::NoMemory;
use peak_ways::turn_cost;
use sqlite_items::Items;

/// What a part costs from its entry on.
pub(crate) fn from_entry(tree: &Tree, t: CostsAhead) -> u128
    requires keeps { KeepsWays tree.now }
    requires tree { cap_cost (part_of tree.now) ≤ 2 ^ 126 }
    requires t { greatest_target (cost_targets t) ≤ 2 ^ 126 }
    ensures value { result ≡ spec.from_entry (part_of tree.now) (cost_targets t) }
    ensures most { result ≤ cap_cost (part_of tree.now) + greatest_target (cost_targets t) }
{
    dearest_cost(dearest_ways(tree), t)
}

/// What a loop with this body costs from its condition on.
pub(crate) fn from_condition(c: u128, step: u128, body: &Tree, t: CostsAhead) -> u128
    requires c { c < 2 ^ 64 }
    requires step { step < 2 ^ 64 }
    requires keeps { KeepsWays body.now }
    requires body { cap_cost (part_of body.now) ≤ 2 ^ 125 }
    requires t { greatest_target (cost_targets t) ≤ 2 ^ 125 }
    ensures { result ≡ spec.from_condition c
        (spec.turn_cost (c + step) (spec.way_back (spec.dearest_ways (part_of body.now))))
        (spec.from_entry (part_of body.now) (sites.body_of (cost_targets t) (step + (c + t.next)))) t.next }
{
    let once = turn_cost(c + step, dearest_ways(body));
    let entry = from_entry(body, body_of(t, step + (c + t.next)));
    let out = entry.saturating_sub(once);
    c + if t.next < out { out } else { t.next }
}

pub(crate) fn push(n: u128, out: &mut Items<i128>) -> Result<(), NoMemory>
    requires { n < 2 ^ 127 }
    ensures { IfOk result (λ u. out.new ≡ out.old ++ map pos (n ∷ [])) }
{
    out.push(n as i128)?;
    Ok(())
}

fn push_step(step: Option<u64>, at: u128, out: &mut Items<i128>) -> Result<(), NoMemory>
    requires { at ≤ 2 ^ 125 }
    ensures { IfOk result (λ u. out.new ≡ out.old ++ map pos (spec.step_potentials step at)) }
{
    if let Some(s) = step {
        push(u128::from(s) + at, out)?;
    }
    Ok(())
}

/// Adds the potentials of the nodes, by their numbers.
#[tactic(auto, using(crate::proofs::TreeLayers::tree_layers))]
pub(crate) fn push_potentials(
    tree: &Tree,
    t: CostsAhead,
    out: &mut Items<i128>,
) -> Result<(), NoMemory>
    requires keeps { KeepsWays tree.now }
    requires room { excess (part_of tree.now) + greatest_target (cost_targets t) ≤ 2 ^ 124 }
    ensures { IfOk result (λ u. out.new ≡ out.old ++ map pos (spec.potentials (part_of tree.now) (cost_targets t))) }
{
    match tree {
        Tree::Nothing => Ok(()),
        Tree::Block(c, leaving) => {
            push(u128::from(*c) + ahead(t, *leaving), out)?;
            Ok(())
        }
        Tree::Then(_, a, b) => {
            let entry = from_entry(b.get(), t);
            push_potentials(a.get(), with_next(t, entry), out)?;
            push_potentials(b.get(), t, out)?;
            Ok(())
        }
        Tree::Choice(_, c, a, b) => {
            let first = from_entry(a.get(), t);
            let second = from_entry(b.get(), t);
            push(u128::from(*c) + larger(first, second), out)?;
            push_potentials(a.get(), t, out)?;
            push_potentials(b.get(), t, out)?;
            Ok(())
        }
        Tree::While(_, c, _, step, a) => {
            let at = from_condition(u128::from(*c), step_cost(*step), a.get(), t);
            push(at, out)?;
            push_step(*step, at, out)?;
            push_potentials(a.get(), body_of(t, step_cost(*step) + at), out)?;
            Ok(())
        }
        Tree::Do(_, c, _, a) => {
            let at = from_condition(u128::from(*c), 0, a.get(), t);
            push_potentials(a.get(), body_of(t, at), out)?;
            push(at, out)?;
            Ok(())
        }
        Tree::Body(_, a) => {
            push_potentials(a.get(), all_to(t.next), out)?;
            Ok(())
        }
    }
}
