//! The dearest ways through a part of a flat graph.

ghost use Rattle.std.specs.Prelude.{◌≡◌, ◌≤◌, ◌<◌, ◌^◌, ◌+◌, ◌*◌, pos};
ghost use Rattle.peak_laws.specs.Parts as spec;
ghost use Rattle.peak_laws.specs.Magnitudes.{WayIsAtMost, WaysAreAtMost};

use peak_laws::{Leaving, Ways};

/// The dearer of two ways.
pub fn greater(o: Option<u128>, p: Option<u128>) -> Option<u128>
    ensures { result ≡ spec.greater o p }
{
    match o {
        None => p,
        Some(d) => match p {
            None => Some(d),
            Some(e) => Some(if d < e { e } else { d }),
        },
    }
}

/// The way with `c` before it.
pub fn more(c: u128, o: Option<u128>) -> Option<u128>
    requires c { c ≤ 2 ^ 126 }
    requires o { WayIsAtMost o (2 ^ 126) }
    ensures { result ≡ spec.more c o }
{
    match o {
        None => None,
        Some(e) => Some(c + e),
    }
}

/// Two ways, one after the other.
pub fn both(o: Option<u128>, p: Option<u128>) -> Option<u128>
    requires o { WayIsAtMost o (2 ^ 126) }
    requires p { WayIsAtMost p (2 ^ 126) }
    ensures { result ≡ spec.sum_of_both o p }
{
    match o {
        None => None,
        Some(d) => more(d, p),
    }
}

pub fn only_next(o: Option<u128>) -> Ways
    ensures { result ≡ spec.only_next o }
{
    Ways {
        next: o,
        breaks: None,
        continues: None,
        returns: None,
    }
}

pub fn block_ways(c: u128, leaving: Leaving) -> Ways
    ensures { result ≡ spec.block_ways c leaving }
{
    let none = only_next(None);
    match leaving {
        Leaving::ByEnd => only_next(Some(c)),
        Leaving::ByBreak => Ways {
            breaks: Some(c),
            ..none
        },
        Leaving::ByContinue => Ways {
            continues: Some(c),
            ..none
        },
        Leaving::ByReturn => Ways {
            returns: Some(c),
            ..none
        },
    }
}

/// Of two parts, one after the other.
pub fn then_ways(a: Ways, b: Ways) -> Ways
    requires a { WaysAreAtMost a (2 ^ 126) }
    requires b { WaysAreAtMost b (2 ^ 126) }
    ensures { result ≡ spec.then_ways a b }
{
    Ways {
        next: both(a.next, b.next),
        breaks: greater(a.breaks, both(a.next, b.breaks)),
        continues: greater(a.continues, both(a.next, b.continues)),
        returns: greater(a.returns, both(a.next, b.returns)),
    }
}

/// Of a condition of the cost `c`, with two parts.
#[tactic(auto, using(peak_laws::proofs::Duals::Magnitudes::most_greater))]
pub fn choice_ways(c: u128, a: Ways, b: Ways) -> Ways
    requires c { c ≤ 2 ^ 126 }
    requires a { WaysAreAtMost a (2 ^ 126) }
    requires b { WaysAreAtMost b (2 ^ 126) }
    ensures { result ≡ spec.choice_ways c a b }
{
    Ways {
        next: more(c, greater(a.next, b.next)),
        breaks: more(c, greater(a.breaks, b.breaks)),
        continues: more(c, greater(a.continues, b.continues)),
        returns: more(c, greater(a.returns, b.returns)),
    }
}

/// The way through a loop's body that leads back to its condition.
pub fn back(a: Ways) -> Option<u128>
    ensures { result ≡ spec.way_back a }
{
    greater(a.next, a.continues)
}

/// What a dearest full turn costs, or 0 where no full turn exists: `c` is the cost of the condition and the step.
#[tactic(auto, using(peak_laws::proofs::Duals::Magnitudes::most_greater))]
pub fn turn_cost(c: u128, a: Ways) -> u128
    requires c { c ≤ 2 ^ 126 }
    requires a { WaysAreAtMost a (2 ^ 126) }
    ensures { result ≡ spec.turn_cost c (spec.way_back a) }
{
    match more(c, back(a)) {
        None => 0,
        Some(d) => d,
    }
}

/// The multiplier of a loop's turn: what a dearest full turn costs.
pub fn turn_multiplier(c: u128, a: Ways) -> i128
    requires c { c ≤ 2 ^ 125 }
    requires a { WaysAreAtMost a (2 ^ 126) }
    ensures { result ≡ pos (spec.turn_cost c (spec.way_back a)) }
{
    turn_cost(c, a) as i128
}

/// Of `while` and `for` with the condition's cost `c`, a bound of `m + 1` and turns that cost `y`.
pub fn while_ways(c: u128, m: u128, y: u128, a: Ways) -> Ways
    requires room { (m + 1) * y + c ≤ 2 ^ 126 }
    requires m { m < 2 ^ 32 }
    requires a { WaysAreAtMost a (2 ^ 126) }
    ensures { result ≡ spec.while_ways c m y a }
{
    let all = (m + 1) * y + c;
    let but_one = m * y + c;
    Ways {
        next: greater(Some(all), more(but_one, a.breaks)),
        returns: more(but_one, a.returns),
        ..only_next(None)
    }
}

/// Of `do`.
#[tactic(auto, using(peak_laws::proofs::Duals::Magnitudes::most_greater))]
pub fn do_ways(c: u128, m: u128, y: u128, a: Ways) -> Ways
    requires room { m * y + c ≤ 2 ^ 126 }
    requires a { WaysAreAtMost a (2 ^ 126) }
    ensures { result ≡ spec.do_ways c m y a }
{
    let turns = m * y;
    Ways {
        next: greater(more(turns + c, back(a)), more(turns, a.breaks)),
        returns: more(turns, a.returns),
        ..only_next(None)
    }
}

/// Of a callee's body.
pub fn body_ways(a: Ways) -> Ways
    ensures { result ≡ spec.body_ways a }
{
    only_next(greater(greater(a.next, a.breaks), greater(a.continues, a.returns)))
}
