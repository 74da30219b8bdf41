//! Trying a list of edges: whether some input drives it.

ghost use Rattle.std.specs.Prelude.{◌≡◌, ◌<◌, true, IfOk};
ghost use Rattle.c_tree.specs.declared.program.Input.{Input};
ghost use Rattle.flow_laws.specs.Graphs.{graph, edges};
ghost use Rattle.flow_laws.specs.Paths.{follows};
ghost use Rattle.cnf_form.specs.Literals.{most};
ghost use Rattle.race_item.specs.Facts.{zero_input};
ghost use Rattle.item_turn.specs.Trials.{IsTrial};

use c_tree::{Input, NoMemory};
use flow_graph::Plan;
use path_cond::condition;
use path_search::{Found, find_input, is_driven_by};
use path_weight::weight;
use sqlite_items::Items;
use std::alloc::Global;

/// A list above this weight is not decided.
const MOST_WEIGHT: u64 = 262_144;

/// What trying a list of edges has shown.
#[derive(Drop)]
pub(crate) enum Trial {
    /// This input fits the program and drives the list.
    Driven(Input),
    /// No input drives the list.
    Refuted,
    /// The search learned as many clauses as its limit allows; zeros do not drive the list, and there is an input
    /// number.
    GaveUp,
    /// The list is too heavy to be decided.
    Heavy,
}

/// Tries the list with an input that is known, with zeros, and then by a search.
pub(crate) fn try_list(
    alloc: Global,
    plan: &Plan,
    list: &[u16],
    known: Option<&Input>,
    limit: u32,
) -> Result<Trial, NoMemory>
    requires contiguous { follows (edges (graph plan.now.program)) list.now ≡ true }
    requires some { 0 < limit }
    requires few { limit < most }
    ensures { IfOk result (λ t. IsTrial plan.now.program list.now limit t) }
{
    if weight(plan, list) > MOST_WEIGHT {
        return Ok(Trial::Heavy);
    }
    if let Some(input) = known {
        if is_driven_by(alloc, plan, list, input)? {
            let input = copy(alloc, input)?;
            return Ok(Trial::Driven(input));
        }
    }
    let input = zeros(alloc, plan)?;
    if is_driven_by(alloc, plan, list, &input)? {
        return Ok(Trial::Driven(input));
    }
    if input.values.is_empty() {
        return Ok(Trial::Refuted);
    }
    match find_input(alloc, plan, list, limit)? {
        Found::Driven(input) => Ok(Trial::Driven(input)),
        Found::Refuted => Ok(Trial::Refuted),
        Found::GaveUp => Ok(Trial::GaveUp),
    }
}

// The input of zeros.
fn zeros(alloc: Global, plan: &Plan) -> Result<Input, NoMemory>
    ensures { IfOk result (λ i. i ≡ zero_input plan.now.program) }
{
    let start = condition(alloc, plan, &[])?;
    let values = vec![in alloc; 0i64; start.terms.inputs().len()]?;
    Ok(Input {
        values: Items::from_vec(values),
    })
}

/// The same input again.
pub(crate) fn copy(alloc: Global, input: &Input) -> Result<Input, NoMemory>
    ensures { IfOk result (λ i. i ≡ input.now) }
{
    let values = Items::from_slice(alloc, input.values.as_slice())?;
    Ok(Input { values })
}
