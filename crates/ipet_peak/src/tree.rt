//! Parts of a flat graph as trees, which keep their dearest ways.

ghost use Rattle.std.specs.Prelude.{◌≡◌, ◌≤◌, ◌<◌, ◌^◌, ◌+◌, IfOk};
ghost use Rattle.peak_laws.specs.Parts as spec;
ghost use Rattle.peak_laws.specs.Magnitudes.{cap_cost};
ghost use Rattle.ipet_peak.specs.Trees.{part_of, KeepsWays, IsTreeOf};

use c_tree::NoMemory;
use peak_laws::{Leaving, Ways};
use peak_ways::{
    block_ways, body_ways, choice_ways, do_ways, only_next, then_ways, turn_cost, while_ways,
};
use sqlite_items::Boxed;
use std::alloc::Global;

/// A part of a flat graph, calls inlined: no node; a node with one end; two parts, one after the other; a condition
/// with two parts; a loop with its condition, its step and its body; and a callee's body. Each node has its cost. A
/// loop has its bound less one. A part that holds others keeps its dearest ways, so that no pass looks for them again.
#[derive(Drop)]
pub(crate) enum Tree {
    Nothing,
    Block(u64, Leaving),
    Then(Ways, Boxed<Tree>, Boxed<Tree>),
    Choice(Ways, u64, Boxed<Tree>, Boxed<Tree>),
    While(Ways, u64, u32, Option<u64>, Boxed<Tree>),
    Do(Ways, u64, u32, Boxed<Tree>),
    Body(Ways, Boxed<Tree>),
}

pub(crate) fn step_cost(step: Option<u64>) -> u128
    ensures value { result ≡ spec.step_cost step }
    ensures small { result < 2 ^ 64 }
{
    match step {
        None => 0,
        Some(s) => u128::from(s),
    }
}

/// The dearest ways through the part, which are there already.
#[tactic(auto, using(crate::proofs::TreeLayers::tree_layers))]
pub(crate) fn dearest_ways(tree: &Tree) -> Ways
    requires { KeepsWays tree.now }
    ensures { result ≡ spec.dearest_ways (part_of tree.now) }
{
    match tree {
        Tree::Nothing => only_next(Some(0)),
        Tree::Block(c, leaving) => block_ways(u128::from(*c), *leaving),
        Tree::Then(ways, _, _) => *ways,
        Tree::Choice(ways, _, _, _) => *ways,
        Tree::While(ways, _, _, _, _) => *ways,
        Tree::Do(ways, _, _, _) => *ways,
        Tree::Body(ways, _) => *ways,
    }
}

/// A part without nodes.
pub(crate) fn no_tree(alloc: Global) -> Result<Boxed<Tree>, NoMemory>
    ensures { IfOk result (λ t. IsTreeOf t spec.Nothing) }
{
    Ok(Boxed::new(alloc, Tree::Nothing)?)
}

/// A node with one end.
pub(crate) fn block_tree(alloc: Global, c: u64, leaving: Leaving) -> Result<Boxed<Tree>, NoMemory>
    ensures { IfOk result (λ t. IsTreeOf t (spec.Block c leaving)) }
{
    Ok(Boxed::new(alloc, Tree::Block(c, leaving))?)
}

/// Two parts, one after the other.
pub(crate) fn then_tree(
    alloc: Global,
    a: Boxed<Tree>,
    b: Boxed<Tree>,
) -> Result<Boxed<Tree>, NoMemory>
    requires a { KeepsWays a }
    requires b { KeepsWays b }
    requires room { cap_cost (part_of a) + cap_cost (part_of b) ≤ 2 ^ 126 }
    ensures { IfOk result (λ t. IsTreeOf t (spec.Then (part_of a) (part_of b))) }
{
    let ways = then_ways(dearest_ways(a.get()), dearest_ways(b.get()));
    Ok(Boxed::new(alloc, Tree::Then(ways, a, b))?)
}

/// A condition with two parts.
pub(crate) fn choice_tree(
    alloc: Global,
    c: u64,
    a: Boxed<Tree>,
    b: Boxed<Tree>,
) -> Result<Boxed<Tree>, NoMemory>
    requires a { KeepsWays a }
    requires b { KeepsWays b }
    requires room { cap_cost (spec.Choice c (part_of a) (part_of b)) ≤ 2 ^ 126 }
    ensures { IfOk result (λ t. IsTreeOf t (spec.Choice c (part_of a) (part_of b))) }
{
    let first = dearest_ways(a.get());
    let second = dearest_ways(b.get());
    let ways = choice_ways(u128::from(c), first, second);
    Ok(Boxed::new(alloc, Tree::Choice(ways, c, a, b))?)
}

/// `while` and `for` with a bound of `m + 1`.
pub(crate) fn while_tree(
    alloc: Global,
    c: u64,
    m: u32,
    step: Option<u64>,
    a: Boxed<Tree>,
) -> Result<Boxed<Tree>, NoMemory>
    requires a { KeepsWays a }
    requires room { cap_cost (spec.While c m step (part_of a)) ≤ 2 ^ 126 }
    ensures { IfOk result (λ t. IsTreeOf t (spec.While c m step (part_of a))) }
{
    let body = dearest_ways(a.get());
    let cost = u128::from(c);
    let turn = turn_cost(cost + step_cost(step), body);
    let ways = while_ways(cost, u128::from(m), turn, body);
    Ok(Boxed::new(alloc, Tree::While(ways, c, m, step, a))?)
}

/// `do` with a bound of `m + 1`.
pub(crate) fn do_tree(
    alloc: Global,
    c: u64,
    m: u32,
    a: Boxed<Tree>,
) -> Result<Boxed<Tree>, NoMemory>
    requires a { KeepsWays a }
    requires room { cap_cost (spec.Do c m (part_of a)) ≤ 2 ^ 126 }
    ensures { IfOk result (λ t. IsTreeOf t (spec.Do c m (part_of a))) }
{
    let body = dearest_ways(a.get());
    let cost = u128::from(c);
    let ways = do_ways(cost, u128::from(m), turn_cost(cost, body), body);
    Ok(Boxed::new(alloc, Tree::Do(ways, c, m, a))?)
}

/// A callee's body.
pub(crate) fn body_tree(alloc: Global, a: Boxed<Tree>) -> Result<Boxed<Tree>, NoMemory>
    requires { KeepsWays a }
    ensures { IfOk result (λ t. IsTreeOf t (spec.Body (part_of a))) }
{
    let ways = body_ways(dearest_ways(a.get()));
    Ok(Boxed::new(alloc, Tree::Body(ways, a))?)
}
