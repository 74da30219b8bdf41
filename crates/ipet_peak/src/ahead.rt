//! What lies ahead of a part.

ghost use Rattle.std.specs.Prelude.{◌≡◌, ◌≤◌, ◌+◌, ◌^◌, max};
ghost use Rattle.flow_laws.specs.Sites as sites;
ghost use Rattle.flow_laws.specs.Graphs as graphs;
ghost use Rattle.peak_laws.specs.Parts as spec;
ghost use Rattle.peak_laws.specs.Magnitudes.{WayIsAtMost, WaysAreAtMost};
ghost use Rattle.ipet_peak.specs.Trees.{cost_by_way, dearest_cost, cost_targets, greatest_target};

use peak_laws::{Leaving, Ways};

/// What lies ahead costs, for each of the four ways out of a part.
#[derive(Clone, Copy, Debug)]
pub(crate) struct CostsAhead {
    pub next: u128,
    pub breaks: u128,
    pub continues: u128,
    pub returns: u128,
}

pub(crate) fn ahead(t: CostsAhead, leaving: Leaving) -> u128
    ensures { result ≡ spec.ahead (cost_targets t) leaving }
{
    match leaving {
        Leaving::ByEnd => t.next,
        Leaving::ByBreak => t.breaks,
        Leaving::ByContinue => t.continues,
        Leaving::ByReturn => t.returns,
    }
}

pub(crate) fn with_next(t: CostsAhead, next: u128) -> CostsAhead
    ensures { cost_targets result ≡ sites.with_next (cost_targets t) next }
{
    CostsAhead { next, ..t }
}

/// Of a loop's body, whose ends lead back to what costs `back`.
pub(crate) fn body_of(t: CostsAhead, back: u128) -> CostsAhead
    ensures { cost_targets result ≡ sites.body_of (cost_targets t) back }
{
    CostsAhead {
        next: back,
        breaks: t.next,
        continues: back,
        returns: t.returns,
    }
}

/// Of a callee's body.
pub(crate) fn all_to(next: u128) -> CostsAhead
    ensures { cost_targets result ≡ graphs.all_to next }
{
    CostsAhead {
        next,
        breaks: next,
        continues: next,
        returns: next,
    }
}

pub(crate) fn larger(a: u128, b: u128) -> u128
    ensures { result ≡ max a b }
{
    if a < b { b } else { a }
}

fn cost_by_way(o: Option<u128>, t: u128) -> u128
    requires o { WayIsAtMost o (2 ^ 126) }
    requires t { t ≤ 2 ^ 126 }
    ensures { result ≡ cost_by_way o t }
{
    match o {
        None => 0,
        Some(d) => d + t,
    }
}

/// The dearest of the ways with what is ahead of each.
pub(crate) fn dearest_cost(w: Ways, t: CostsAhead) -> u128
    requires w { WaysAreAtMost w (2 ^ 126) }
    requires t { greatest_target (cost_targets t) ≤ 2 ^ 126 }
    ensures { result ≡ dearest_cost w (cost_targets t) }
{
    larger(
        larger(cost_by_way(w.next, t.next), cost_by_way(w.breaks, t.breaks)),
        larger(
            cost_by_way(w.continues, t.continues),
            cost_by_way(w.returns, t.returns),
        ),
    )
}
