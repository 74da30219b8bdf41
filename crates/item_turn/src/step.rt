//! Steps of a turn: from one fork to the next, while one of its sides covers no driven path.

ghost use Rattle.std.specs.Prelude.{◌≡◌, ◌<◌, IfOk};
ghost use Rattle.cnf_form.specs.Literals.{most};
ghost use Rattle.flow_laws.specs.Graphs.{graph, edges};
ghost use Rattle.flow_laws.specs.Paths.{IsPath};
ghost use Rattle.path_formulas.specs.FormulasOfLists.{IsDrivenBy};
ghost use Rattle.race_item.specs.Items.{list_cost};
ghost use Rattle.race_item.specs.declared.settlement.Conclusion.TheVariants.{Found};
ghost use Rattle.item_turn.specs.Stretches.{AreFork, IsStretch};
ghost use Rattle.item_turn.specs.Steps.{IsOf, IsOnlyPath, IsOpen, IsStep};

use crate::onward::{Onward, go_on};
use crate::trial::{Trial, try_list};
use c_tree::{Input, NoMemory};
use race_item::{Item, Settlement, keeps_cuts, price};
use sqlite_items::Items;
use std::alloc::Global;

/// A fork of an item and an input that drives its stem: the two lists are the stem with one edge and with the other.
#[derive(Drop)]
pub(crate) struct Open {
    pub first: Items<u16>,
    pub second: Items<u16>,
    pub input: Input,
}

/// What a step from a fork comes to.
#[derive(Drop)]
pub(crate) enum Step<'p> {
    /// The item is settled.
    Settled(Settlement<'p>),
    /// The item is to be split at the fork.
    Split,
    /// The item has a further fork.
    On(Open),
}

/// Tries both sides of the fork, and goes on along the one where the other covers no driven path.
pub(crate) fn pass<'p>(
    alloc: Global,
    item: &Item<'p>,
    fork: &Open,
    limit: u32,
) -> Result<Step<'p>, NoMemory>
    requires fork { IsOpen item.now fork.now }
    requires some { 0 < limit }
    requires few { limit < most }
    ensures { IfOk result (λ s. IsStep item.now limit s) }
{
    let plan = item.rows().plan();
    let first = fork.first.as_slice();
    let second = fork.second.as_slice();
    let known = Some(&fork.input);
    match try_list(alloc, plan, first, known, limit)? {
        Trial::Refuted => match try_list(alloc, plan, second, known, limit)? {
            Trial::Refuted => Ok(Step::Settled(Settlement::refuted(item))),
            Trial::Driven(input) => along(alloc, item, second, input, limit),
            Trial::GaveUp | Trial::Heavy => Ok(Step::Split),
        },
        Trial::Driven(input) => match try_list(alloc, plan, second, known, limit)? {
            Trial::Refuted => along(alloc, item, first, input, limit),
            Trial::Driven(_) | Trial::GaveUp | Trial::Heavy => Ok(Step::Split),
        },
        Trial::GaveUp | Trial::Heavy => Ok(Step::Split),
    }
}

// Goes on along a list that the input drives.
fn along<'p>(
    alloc: Global,
    item: &Item<'p>,
    list: &[u16],
    input: Input,
    limit: u32,
) -> Result<Step<'p>, NoMemory>
    requires stretch { IsStretch item.now.rows.plan.program item.now.region list.now }
    requires some { 0 < limit }
    requires few { limit < most }
    ensures { IfOk result (λ s. IsStep item.now limit s) }
{
    match go_on(alloc, item, list)? {
        Onward::Nowhere => Ok(Step::Settled(Settlement::refuted(item))),
        Onward::Long(_) => Ok(Step::Split),
        Onward::Path(path) => at_path(alloc, item, path.as_slice(), &input, limit),
        Onward::Fork(first, second) => at_fork(alloc, item, first, second, &input, limit),
    }
}

fn at_path<'p>(
    alloc: Global,
    item: &Item<'p>,
    path: &[u16],
    known: &Input,
    limit: u32,
) -> Result<Step<'p>, NoMemory>
    requires stretch { IsStretch item.now.rows.plan.program item.now.region path.now }
    requires path { IsPath (edges (graph item.now.rows.plan.program)) path.now }
    requires some { 0 < limit }
    requires few { limit < most }
    ensures { IfOk result (λ s. IsStep item.now limit s) }
{
    if !keeps_cuts(item.rows().plan(), path, item.cuts()) {
        return Ok(Step::Settled(Settlement::refuted(item)));
    }
    match try_list(alloc, item.rows().plan(), path, Some(known), limit)? {
        Trial::Driven(input) => Ok(Step::Settled(found(item, path, input))),
        Trial::Refuted => Ok(Step::Settled(Settlement::refuted(item))),
        Trial::GaveUp | Trial::Heavy => Ok(Step::Split),
    }
}

fn at_fork<'p>(
    alloc: Global,
    item: &Item<'p>,
    first: Items<u16>,
    second: Items<u16>,
    known: &Input,
    limit: u32,
) -> Result<Step<'p>, NoMemory>
    requires fork { AreFork item.now.rows.plan.program item.now.region first second }
    requires some { 0 < limit }
    requires few { limit < most }
    ensures { IfOk result (λ s. IsStep item.now limit s) }
{
    let stem = &first.as_slice()[..first.len() - 1];
    match try_list(alloc, item.rows().plan(), stem, Some(known), limit)? {
        Trial::Driven(input) => Ok(Step::On(Open {
            first,
            second,
            input,
        })),
        Trial::Refuted => Ok(Step::Settled(Settlement::refuted(item))),
        Trial::GaveUp | Trial::Heavy => Ok(Step::Split),
    }
}

/// The path, which the input drives, is the only one of the item.
pub(crate) fn found<'p>(item: &Item<'p>, path: &[u16], input: Input) -> Settlement<'p>
    requires path { IsOnlyPath item.now path.now }
    requires driven { IsDrivenBy item.now.rows.plan.program path.now input }
    ensures item { result.item ≡ item.now }
    ensures found { result.conclusion ≡ Found input (list_cost item.now.rows.plan path.now) }
{
    let plan = item.rows().plan();
    // The program is well-formed.
    plan.program();
    let cost = price(plan, path);
    Settlement::found(item, input, cost)
}
