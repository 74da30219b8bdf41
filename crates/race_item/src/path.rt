//! What settles an item by a path.

ghost use Rattle.std.specs.Prelude.{◌≡◌, ◌↔◌, true, Some, IsTrue, IfOk, IfSome, IfNone, slice_get};
ghost use Rattle.flow_laws.specs.Graphs.{graph, edges};
ghost use Rattle.flow_laws.specs.Paths.{end_node, follows, edge_count, IsPath};
ghost use Rattle.flow_laws.specs.Claims.{Begins};
ghost use Rattle.ipet_rows.specs.Counts.{edge_counts};
ghost use Rattle.race_item.specs.Items.{list_cost};
ghost use Rattle.race_item.specs.Forks.{FindsBy};
ghost use Rattle.race_item.specs.Trials.{IsFoundByPath, MaySettle, is_within, keeps_cuts};

use crate::fork::drives;
use crate::item::Item;
use crate::region::Cut;
use crate::settlement::Settlement;
use c_tree::{Input, NoMemory};
use flow_graph::Plan;
use std::alloc::Global;

/// The node of Exit.
const EXIT: u32 = 1;

/// Settles an item by a path that the input drives: what is found is the input, at the path's price. It does so
/// exactly where the list is a path that weighs at most 262,144, the item covers it, the input fits and drives it, and
/// its price is the item's bound or the item's prefix is the whole path. `NoMemory` is want of memory.
pub fn by_path<'p>(
    alloc: Global,
    item: &Item<'p>,
    path: &[u16],
    input: Input,
) -> Result<Option<Settlement<'p>>, NoMemory>
    ensures item { IfOk result (λ o. IfSome o (λ s. s.item ≡ item.now)) }
    ensures found { IfOk result (λ o. IfSome o
        (λ s. IsFoundByPath item.now.rows.plan item.now.region path.now input s.conclusion)) }
    ensures none { IfOk result (λ o. IfNone o (¬ FindsBy item.now.rows.plan item.now.region path.now input)) }
{
    if !may_settle(item, path) {
        return Ok(None);
    }
    let plan = item.rows().plan();
    // The program is well-formed.
    plan.program();
    if !drives(alloc, plan, path, &input)? {
        return Ok(None);
    }
    let cost = price(plan, path);
    Ok(Some(Settlement::found(item, input, cost)))
}

// Whether the path settles the item, if an input drives it.
fn may_settle<'p>(item: &Item<'p>, path: &[u16]) -> bool
    ensures { IsTrue result ↔ MaySettle item.now.rows.plan item.now.region path.now }
{
    let plan = item.rows().plan();
    if !is_path(plan, path) {
        return false;
    }
    if !begins(path, item.prefix()) {
        return false;
    }
    if !keeps_cuts(plan, path, item.cuts()) {
        return false;
    }
    if price(plan, path) == item.bound() {
        return true;
    }
    item.prefix() == path
}

// Whether the list is contiguous from Entry and leads into Exit.
fn is_path(plan: &Plan, list: &[u16]) -> bool
    ensures { IsTrue result ↔ IsPath (edges (graph plan.now.program)) list.now }
{
    if !plan.follows(list) {
        return false;
    }
    end_of(plan, list) == EXIT
}

// The node to which the list leads from Entry.
fn end_of(plan: &Plan, list: &[u16]) -> u32
    requires { follows (edges (graph plan.now.program)) list.now ≡ true }
    ensures { end_node (edges (graph plan.now.program)) 0 list.now ≡ Some result }
{
    let mut at = 0;
    for e in list {
        at = plan.edge(*e).to;
    }
    at
}

fn begins(path: &[u16], prefix: &[u16]) -> bool
    ensures { IsTrue result ↔ Begins prefix.now path.now }
{
    path.starts_with(prefix)
}

/// Whether the counts of a list of edges lie within each cut, and each cut names an edge of the plan. It takes no
/// memory.
pub fn keeps_cuts(plan: &Plan, list: &[u16], cuts: &[Cut]) -> bool
    ensures { result ≡ keeps_cuts plan.now.program list.now cuts.now }
{
    for cut in cuts {
        if !keeps_cut(plan, list, *cut) {
            return false;
        }
    }
    true
}

fn keeps_cut(plan: &Plan, list: &[u16], cut: Cut) -> bool
    ensures { result ≡ is_within cut (slice_get (edge_counts plan.now.program list.now) cut.edge) }
{
    if u32::from(cut.edge) >= plan.edges() {
        return false;
    }
    let times = count(list, cut.edge);
    cut.lo <= times && times <= cut.hi
}

// How often the list has the edge.
fn count(list: &[u16], edge: u16) -> u64
    ensures { result ≡ edge_count list.now edge }
{
    let mut times: u64 = 0;
    for e in list {
        if *e == edge {
            times += 1;
        }
    }
    times
}

/// What a list of edges costs that is contiguous from Entry: the sum of what its edges do. It takes no memory.
pub fn price(plan: &Plan, list: &[u16]) -> u128
    requires { follows (edges (graph plan.now.program)) list.now ≡ true }
    ensures { result ≡ list_cost plan.now list.now }
{
    let mut sum: u128 = 0;
    for e in list {
        sum += u128::from(plan.cost(*e));
    }
    sum
}
