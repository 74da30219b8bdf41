//! How often each edge of a part is taken, where it is gone through by its dearest ways.

ghost use Rattle.std.specs.Prelude.{◌≡◌, ◌≤◌, ◌<◌, ◌+◌, ◌*◌, ◌^◌, ◌++◌, ◌∷◌, [], IfOk};
ghost use Rattle.peak_laws.specs.Parts as spec;
ghost use Rattle.peak_laws.specs.Flows as counts;
ghost use Rattle.peak_laws.specs.Magnitudes.{cap_cost, WaysAreAtMost, node_caps};
ghost use Rattle.ipet_peak.specs.Trees.{part_of, amount_targets, FitsCaps, KeepsWays};

use crate::tree::{Tree, dearest_ways, step_cost};
use c_tree::NoMemory;
use peak_laws::{Leaving, Ways};
use peak_ways::{back, both, greater, more, turn_cost};
use sqlite_items::Items;

/// How often a part is left, by each of the four ways.
#[derive(Clone, Copy, Debug)]
pub(crate) struct Amounts {
    pub next: u64,
    pub breaks: u64,
    pub continues: u64,
    pub returns: u64,
}

// How often a loop's condition goes each way, how often its step is taken, and how its body is left.
#[derive(Drop)]
struct Turns {
    on: u64,
    out: u64,
    full: u64,
    body: Amounts,
}

// How often the first and the second of two parts are left by each way.
#[derive(Drop)]
struct Shares {
    first: Amounts,
    second: Amounts,
}

// Whether the first is there, and no less than the second.
fn is_dearer(o: Option<u128>, p: Option<u128>) -> bool
    ensures { result ≡ counts.is_dearer o p }
{
    match o {
        None => false,
        Some(d) => match p {
            None => true,
            Some(e) => e <= d,
        },
    }
}

fn by_first(o: Option<u128>, p: Option<u128>, x: u64) -> u64
    ensures { result ≡ counts.by_first o p x }
{
    if is_dearer(o, p) { x } else { 0 }
}

fn by_second(o: Option<u128>, p: Option<u128>, x: u64) -> u64
    ensures { result ≡ counts.by_second o p x }
{
    if is_dearer(o, p) { 0 } else { x }
}

fn amount_by_way(o: Option<u128>, x: u64) -> u64
    ensures { result ≡ counts.amount_by_way o x }
{
    match o {
        None => 0,
        Some(_) => x,
    }
}

fn whole(a: Amounts) -> u64
    requires { counts.whole (amount_targets a) < 2 ^ 64 }
    ensures { result ≡ counts.whole (amount_targets a) }
{
    a.next + (a.breaks + (a.continues + a.returns))
}

fn leaving(a: Amounts, leaving: Leaving) -> u64
    ensures { result ≡ spec.ahead (amount_targets a) leaving }
{
    match leaving {
        Leaving::ByEnd => a.next,
        Leaving::ByBreak => a.breaks,
        Leaving::ByContinue => a.continues,
        Leaving::ByReturn => a.returns,
    }
}

fn then_second(v: Ways, w: Ways, a: Amounts) -> Amounts
    requires v { WaysAreAtMost v (2 ^ 126) }
    requires w { WaysAreAtMost w (2 ^ 126) }
    ensures { amount_targets result ≡ counts.then_second v w (amount_targets a) }
{
    Amounts {
        next: a.next,
        breaks: by_second(v.breaks, both(v.next, w.breaks), a.breaks),
        continues: by_second(v.continues, both(v.next, w.continues), a.continues),
        returns: by_second(v.returns, both(v.next, w.returns), a.returns),
    }
}

fn then_first(v: Ways, w: Ways, next: u64, a: Amounts) -> Amounts
    requires v { WaysAreAtMost v (2 ^ 126) }
    requires w { WaysAreAtMost w (2 ^ 126) }
    requires next { next ≡ counts.whole (counts.then_second v w (amount_targets a)) }
    ensures { amount_targets result ≡ counts.then_first v w (amount_targets a) }
{
    Amounts {
        next,
        breaks: by_first(v.breaks, both(v.next, w.breaks), a.breaks),
        continues: by_first(v.continues, both(v.next, w.continues), a.continues),
        returns: by_first(v.returns, both(v.next, w.returns), a.returns),
    }
}

// Of two parts, one after the other.
fn then_shares(a: &Tree, b: &Tree, left: Amounts) -> Shares
    requires a { KeepsWays a.now }
    requires b { KeepsWays b.now }
    requires first { cap_cost (part_of a.now) ≤ 2 ^ 125 }
    requires second { cap_cost (part_of b.now) ≤ 2 ^ 125 }
    requires left { counts.whole (amount_targets left) ≤ 2 ^ 40 }
    ensures first { amount_targets result.first ≡ counts.then_first (spec.dearest_ways (part_of a.now))
        (spec.dearest_ways (part_of b.now)) (amount_targets left) }
    ensures second { amount_targets result.second ≡ counts.then_second (spec.dearest_ways (part_of a.now))
        (spec.dearest_ways (part_of b.now)) (amount_targets left) }
{
    let v = dearest_ways(a);
    let w = dearest_ways(b);
    let second = then_second(v, w, left);
    let first = then_first(v, w, whole(second), left);
    Shares { first, second }
}

fn choice_first(v: Ways, w: Ways, a: Amounts) -> Amounts
    ensures { amount_targets result ≡ counts.choice_first v w (amount_targets a) }
{
    Amounts {
        next: by_first(v.next, w.next, a.next),
        breaks: by_first(v.breaks, w.breaks, a.breaks),
        continues: by_first(v.continues, w.continues, a.continues),
        returns: by_first(v.returns, w.returns, a.returns),
    }
}

fn choice_second(v: Ways, w: Ways, a: Amounts) -> Amounts
    ensures { amount_targets result ≡ counts.choice_second v w (amount_targets a) }
{
    Amounts {
        next: by_second(v.next, w.next, a.next),
        breaks: by_second(v.breaks, w.breaks, a.breaks),
        continues: by_second(v.continues, w.continues, a.continues),
        returns: by_second(v.returns, w.returns, a.returns),
    }
}

// Of a choice.
fn choice_shares(a: &Tree, b: &Tree, left: Amounts) -> Shares
    requires a { KeepsWays a.now }
    requires b { KeepsWays b.now }
    ensures first { amount_targets result.first ≡ counts.choice_first (spec.dearest_ways (part_of a.now))
        (spec.dearest_ways (part_of b.now)) (amount_targets left) }
    ensures second { amount_targets result.second ≡ counts.choice_second (spec.dearest_ways (part_of a.now))
        (spec.dearest_ways (part_of b.now)) (amount_targets left) }
{
    let v = dearest_ways(a);
    let w = dearest_ways(b);
    Shares {
        first: choice_first(v, w, left),
        second: choice_second(v, w, left),
    }
}

// How a loop's body is left that leads back `full` times.
fn loop_body_amounts(w: Ways, full: u64, out: u64, r: u64) -> Amounts
    ensures { amount_targets result ≡ counts.loop_body_amounts w full out r }
{
    Amounts {
        next: by_first(w.next, w.continues, full),
        breaks: out,
        continues: by_second(w.next, w.continues, full),
        returns: r,
    }
}

// Of `while` and `for` with a bound of `m + 1`.
fn while_turns(c: u64, m: u32, step: Option<u64>, body: &Tree, a: Amounts) -> Turns
    requires keeps { KeepsWays body.now }
    requires light { cap_cost (spec.While c m step (part_of body.now)) ≤ 2 ^ 125 }
    requires fits { counts.whole (amount_targets a) * (m + 1) ≤ 2 ^ 40 }
    ensures counts { counts.flows (spec.While c m step (part_of body.now)) (amount_targets a)
        ≡ result.on ∷ (result.out ∷ (counts.step_flows step result.full ++ counts.flows (part_of body.now)
        (amount_targets result.body))) }
    ensures fits { counts.whole (amount_targets result.body) ≤ counts.whole (amount_targets a) * (m + 1) }
{
    let w = dearest_ways(body);
    let cost = u128::from(c);
    let y = turn_cost(cost + step_cost(step), w);
    let all = Some((u128::from(m) + 1) * y + cost);
    let but_one = more(u128::from(m) * y + cost, w.breaks);
    let stays = by_first(all, but_one, a.next);
    let breaks = by_second(all, but_one, a.next);
    let left = breaks + a.returns;
    let m = u64::from(m);
    let full = amount_by_way(back(w), (m + 1) * stays + m * left);
    Turns {
        on: full + left,
        out: stays,
        full,
        body: loop_body_amounts(w, full, breaks, a.returns),
    }
}

// Of `do`.
fn do_turns(c: u64, m: u32, body: &Tree, a: Amounts) -> Turns
    requires keeps { KeepsWays body.now }
    requires light { cap_cost (spec.Do c m (part_of body.now)) ≤ 2 ^ 125 }
    requires fits { counts.whole (amount_targets a) * (m + 1) ≤ 2 ^ 40 }
    ensures counts { counts.flows (spec.Do c m (part_of body.now)) (amount_targets a)
        ≡ counts.flows (part_of body.now) (amount_targets result.body) ++ (result.on ∷ (result.out ∷ [])) }
    ensures fits { counts.whole (amount_targets result.body) ≤ counts.whole (amount_targets a) * (m + 1) }
{
    let w = dearest_ways(body);
    let cost = u128::from(c);
    let y = turn_cost(cost, w);
    let all = more(u128::from(m) * y + cost, back(w));
    let but_one = more(u128::from(m) * y, w.breaks);
    let stays = by_first(all, but_one, a.next);
    let breaks = by_second(all, but_one, a.next);
    let full = amount_by_way(back(w), u64::from(m) * (stays + (breaks + a.returns)));
    Turns {
        on: full,
        out: stays,
        full,
        body: loop_body_amounts(w, full + stays, breaks, a.returns),
    }
}

// How a callee's body is left that is left `x` times.
fn body_amounts(w: Ways, x: u64) -> Amounts
    ensures { amount_targets result ≡ counts.body_amounts w x }
{
    let here = greater(w.next, w.breaks);
    let there = greater(w.continues, w.returns);
    let near = by_first(here, there, x);
    let far = by_second(here, there, x);
    Amounts {
        next: by_first(w.next, w.breaks, near),
        breaks: by_second(w.next, w.breaks, near),
        continues: by_first(w.continues, w.returns, far),
        returns: by_second(w.continues, w.returns, far),
    }
}

fn push_step(step: Option<u64>, full: u64, out: &mut Items<u64>) -> Result<(), NoMemory>
    ensures { IfOk result (λ u. out.new ≡ out.old ++ counts.step_flows step full) }
{
    if let Some(_) = step {
        out.push(full)?;
    }
    Ok(())
}

/// Adds the counts of the edges, by their sources, of a part that is left so often.
#[tactic(auto, using(crate::proofs::TreeLayers::tree_layers))]
pub(crate) fn push_flows(tree: &Tree, a: Amounts, out: &mut Items<u64>) -> Result<(), NoMemory>
    requires keeps { KeepsWays tree.now }
    requires light { cap_cost (part_of tree.now) ≤ 2 ^ 125 }
    requires fit { FitsCaps (part_of tree.now) (counts.whole (amount_targets a)) }
    ensures { IfOk result (λ u. out.new ≡ out.old ++ counts.flows (part_of tree.now) (amount_targets a)) }
{
    match tree {
        Tree::Nothing => Ok(()),
        Tree::Block(_, l) => {
            out.push(leaving(a, *l))?;
            Ok(())
        }
        Tree::Then(_, p, q) => {
            let shares = then_shares(p.get(), q.get(), a);
            push_flows(p.get(), shares.first, out)?;
            push_flows(q.get(), shares.second, out)?;
            Ok(())
        }
        Tree::Choice(_, _, p, q) => {
            let shares = choice_shares(p.get(), q.get(), a);
            out.push(whole(shares.first))?;
            out.push(whole(shares.second))?;
            push_flows(p.get(), shares.first, out)?;
            push_flows(q.get(), shares.second, out)?;
            Ok(())
        }
        Tree::While(_, c, m, step, body) => {
            let turns = while_turns(*c, *m, *step, body.get(), a);
            out.push(turns.on)?;
            out.push(turns.out)?;
            push_step(*step, turns.full, out)?;
            push_flows(body.get(), turns.body, out)?;
            Ok(())
        }
        Tree::Do(_, c, m, body) => {
            let turns = do_turns(*c, *m, body.get(), a);
            push_flows(body.get(), turns.body, out)?;
            out.push(turns.on)?;
            out.push(turns.out)?;
            Ok(())
        }
        Tree::Body(_, body) => {
            push_flows(
                body.get(),
                body_amounts(dearest_ways(body.get()), a.next),
                out,
            )?;
            Ok(())
        }
    }
}
