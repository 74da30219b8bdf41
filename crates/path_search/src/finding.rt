//! A search for an input that drives a list of edges.

ghost use Rattle.std.specs.Prelude.{◌≡◌, ◌<◌, ◌≤◌, true, IfOk};
ghost use Rattle.flow_laws.specs.Graphs.{graph, edges};
ghost use Rattle.flow_laws.specs.Paths.{follows};
ghost use Rattle.cond_laws.specs.Weights.{weight, most_weight};
ghost use Rattle.cnf_form.specs.Literals.{most};
ghost use Rattle.path_search.specs.Findings.{IsFinding, IsFirstFinding};

use crate::asking::ask;
use crate::formula::{folded_formula_of, formula_of};
use crate::found::Found;
use c_tree::NoMemory;
use flow_graph::Plan;
use std::alloc::Global;

/// Searches for an input that fits the program and drives a list of edges that is contiguous from Entry and not too
/// heavy. It first asks the formula of the list's folded terms, and where the search on it gives up, the formula of the
/// list itself; each of the two searches learns at most `limit` clauses. The answer is an input that drives the list;
/// or that none does; or that both searches gave up, and then there is a log for the formula of the list that is worked
/// at the limit: it has exactly `limit` lines, and each of them follows and teaches. `NoMemory` is want of memory; it is
/// also the answer where a formula would have more than 2,147,483,647 variables or clauses.
pub fn find_input(alloc: Global, plan: &Plan, list: &[u16], limit: u32) -> Result<Found, NoMemory>
    requires contiguous { follows (edges (graph plan.now.program)) list.now ≡ true }
    requires light { weight plan.now.program list.now ≤ most_weight }
    requires some { 0 < limit }
    requires few { limit < most }
    ensures { IfOk result (λ found. IsFinding plan.now.program list.now limit found) }
{
    match ask_folded(alloc, plan, list, limit)? {
        Found::Driven(input) => Ok(Found::Driven(input)),
        Found::Refuted => Ok(Found::Refuted),
        Found::GaveUp => ask_whole(alloc, plan, list, limit),
    }
}

// The search on the formula of the list's folded terms. Where it gives up, nothing is known.
fn ask_folded(alloc: Global, plan: &Plan, list: &[u16], limit: u32) -> Result<Found, NoMemory>
    requires contiguous { follows (edges (graph plan.now.program)) list.now ≡ true }
    requires light { weight plan.now.program list.now ≤ most_weight }
    requires some { 0 < limit }
    requires few { limit < most }
    ensures { IfOk result (λ found. IsFirstFinding plan.now.program list.now found) }
{
    let blasted = folded_formula_of(alloc, plan, list)?;
    ask(alloc, &blasted, limit)
}

// The search on the formula of the list itself.
fn ask_whole(alloc: Global, plan: &Plan, list: &[u16], limit: u32) -> Result<Found, NoMemory>
    requires contiguous { follows (edges (graph plan.now.program)) list.now ≡ true }
    requires light { weight plan.now.program list.now ≤ most_weight }
    requires some { 0 < limit }
    requires few { limit < most }
    ensures { IfOk result (λ found. IsFinding plan.now.program list.now limit found) }
{
    let blasted = formula_of(alloc, plan, list)?;
    ask(alloc, &blasted, limit)
}
