//! How an item is settled.

ghost use Rattle.std.specs.Prelude.{◌≡◌, ◌<◌, IfOk};
ghost use Rattle.cnf_form.specs.Literals.{most};
ghost use Rattle.flow_laws.specs.Graphs.{graph, edges};
ghost use Rattle.flow_laws.specs.Paths.{IsPath};
ghost use Rattle.race_item.specs.Regions.{IsFront};
ghost use Rattle.item_turn.specs.Stretches.{HasHeavyFront, IsForkFrom, IsStretch};
ghost use Rattle.item_turn.specs.Steps.{IsOf, IsOpen};

use crate::onward::{Onward, go_on};
use crate::splitting::split;
use crate::step::{Open, Step, found, pass};
use crate::trial::{Trial, copy, try_list};
use c_tree::{Input, NoMemory};
use item_bounds::counts_left;
use lin_rows::Multipliers;
use race_item::{Item, Settlement, keeps_cuts};
use sqlite_items::Items;
use std::alloc::Global;

/// How many forks of an item a turn passes at most.
const FORKS: usize = 1_024;

/// A settlement, and an input that drove the item's front.
pub(crate) struct Turned<'p> {
    pub settled: Settlement<'p>,
    pub input: Option<Input>,
}

fn without_input<'p>(settled: Settlement<'p>) -> Turned<'p>
    ensures { result.settled ≡ settled.entry }
{
    Turned {
        settled,
        input: None,
    }
}

/// Settles the item, with an input that drove an earlier one.
pub(crate) fn settle<'p>(
    alloc: Global,
    item: &Item<'p>,
    known: Option<&Input>,
    by: &[Multipliers],
    limit: u32,
) -> Result<Turned<'p>, NoMemory>
    requires some { 0 < limit }
    requires few { limit < most }
    ensures { IfOk result (λ t. IsOf item.now limit t.settled) }
{
    // The prefix is contiguous from Entry.
    item.bound();
    if counts_left(alloc, item.rows(), item.cuts(), item.prefix())?.is_none() {
        return Ok(without_input(Settlement::empty(item)));
    }
    match go_on(alloc, item, item.prefix())? {
        Onward::Nowhere => Ok(without_input(Settlement::refuted(item))),
        Onward::Long(_) => Ok(without_input(heavy(alloc, item, known, limit)?)),
        Onward::Path(path) => Ok(without_input(at_path(
            alloc,
            item,
            path.as_slice(),
            known,
            limit,
        )?)),
        Onward::Fork(first, second) => at_fork(alloc, item, first, second, known, by, limit),
    }
}

// An item of which a front is too heavy to be decided.
fn heavy<'p>(
    alloc: Global,
    item: &Item<'p>,
    known: Option<&Input>,
    limit: u32,
) -> Result<Settlement<'p>, NoMemory>
    requires heavy { HasHeavyFront item.now.rows.plan.program item.now.region }
    requires some { 0 < limit }
    requires few { limit < most }
    ensures { IfOk result (λ s. IsOf item.now limit s) }
{
    // The prefix is contiguous from Entry.
    item.bound();
    match try_list(alloc, item.rows().plan(), item.prefix(), known, limit)? {
        Trial::Driven(_) | Trial::Heavy => Ok(Settlement::park_weight(item)),
        Trial::Refuted => Ok(Settlement::refuted(item)),
        Trial::GaveUp => Ok(Settlement::park_conflicts(item, limit)),
    }
}

// An item whose paths are this one alone.
fn at_path<'p>(
    alloc: Global,
    item: &Item<'p>,
    path: &[u16],
    known: Option<&Input>,
    limit: u32,
) -> Result<Settlement<'p>, NoMemory>
    requires stretch { IsStretch item.now.rows.plan.program item.now.region path.now }
    requires front { IsFront item.now.rows.plan.program item.now.region path.now }
    requires path { IsPath (edges (graph item.now.rows.plan.program)) path.now }
    requires some { 0 < limit }
    requires few { limit < most }
    ensures { IfOk result (λ s. IsOf item.now limit s) }
{
    let plan = item.rows().plan();
    if !keeps_cuts(plan, path, item.cuts()) {
        return Ok(Settlement::refuted(item));
    }
    match try_list(alloc, plan, path, known, limit)? {
        Trial::Driven(input) => Ok(found(item, path, input)),
        Trial::Refuted => Ok(Settlement::refuted(item)),
        Trial::GaveUp => Ok(Settlement::park_conflicts(item, limit)),
        Trial::Heavy => heavy(alloc, item, known, limit),
    }
}

// An item whose paths part here.
fn at_fork<'p>(
    alloc: Global,
    item: &Item<'p>,
    first: Items<u16>,
    second: Items<u16>,
    known: Option<&Input>,
    by: &[Multipliers],
    limit: u32,
) -> Result<Turned<'p>, NoMemory>
    requires fork { IsForkFrom item.now.rows.plan.program item.now.region first second }
    requires some { 0 < limit }
    requires few { limit < most }
    ensures { IfOk result (λ t. IsOf item.now limit t.settled) }
{
    let stem = &first.as_slice()[..first.len() - 1];
    match try_list(alloc, item.rows().plan(), stem, known, limit)? {
        Trial::Driven(input) => past_forks(
            alloc,
            item,
            Open {
                first,
                second,
                input,
            },
            by,
            limit,
        ),
        Trial::Refuted => Ok(without_input(Settlement::refuted(item))),
        Trial::GaveUp => Ok(without_input(Settlement::park_conflicts(item, limit))),
        Trial::Heavy => Ok(without_input(heavy(alloc, item, known, limit)?)),
    }
}

// Passes forks while one of their sides covers no driven path, and splits the item at the first of which both may.
fn past_forks<'p>(
    alloc: Global,
    item: &Item<'p>,
    first: Open,
    by: &[Multipliers],
    limit: u32,
) -> Result<Turned<'p>, NoMemory>
    requires fork { IsOpen item.now first }
    requires some { 0 < limit }
    requires few { limit < most }
    ensures { IfOk result (λ t. IsOf item.now limit t.settled) }
{
    let mut fork = first;
    for _ in 0..FORKS {
        match pass(alloc, item, &fork, limit)? {
            Step::Settled(settled) => return Ok(without_input(settled)),
            Step::On(further) => fork = further,
            Step::Split => break,
        }
    }
    let input = copy(alloc, &fork.input)?;
    let settled = split(alloc, item, fork, by, limit)?;
    Ok(Turned {
        settled,
        input: Some(input),
    })
}
