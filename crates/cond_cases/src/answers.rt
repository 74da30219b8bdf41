//! The answers to the cases.

ghost use Rattle.std.specs.Prelude.{◌≡◌};
ghost use Rattle.c_tree.specs.declared.program.Input.{Input};
ghost use Rattle.c_tree.specs.Meaning.Runs.{fits as fits_of};
ghost use Rattle.bv_term.specs.Stores.{fits_store};

use crate::lists::{are_edges, edges_of, input_of};
use c_input::fits;
use c_run::{RunEnd, run};
use c_tree::Input;
use case_plans::Wrong;
use flow_graph::Plan;
use path_cond::{PathCond, condition};
use path_weight::weight;
use std::alloc::{AllocError, Global};

/// The greatest weight of a list whose condition is made.
const MOST_WEIGHT: u64 = 262_144;

/// The weight of a list.
pub(crate) fn weighed(alloc: Global, plan: &Plan, edges: &str) -> Result<String, Wrong> {
    let list = edges_of(alloc, edges)?;
    if !are_edges(plan, list.as_slice()) {
        return Err(Wrong::NoList);
    }
    let weight = weight(plan, list.as_slice());
    Ok(format!(in alloc; "{weight}")?)
}

/// For each input whether all conditions of a list are nonzero, and how the run ends.
pub(crate) fn driven(
    alloc: Global,
    plan: &Plan,
    edges: &str,
    inputs: &str,
) -> Result<String, Wrong> {
    let list = edges_of(alloc, edges)?;
    let list = list.as_slice();
    if !are_edges(plan, list) || !plan.follows(list) || weight(plan, list) > MOST_WEIGHT {
        return Err(Wrong::NoList);
    }
    match condition(alloc, plan, list) {
        Ok(condition) => each_told(alloc, plan, &condition, inputs),
        Err(_) => Err(Wrong::NoMemory),
    }
}

fn each_told(
    alloc: Global,
    plan: &Plan,
    condition: &PathCond,
    inputs: &str,
) -> Result<String, Wrong>
    requires { (i : Input) → fits_store condition.now.terms i ≡ fits_of plan.now.program i }
{
    let mut text = String::new(alloc);
    for input in inputs.split("; ") {
        if !text.is_empty() {
            text.push_str("; ")?;
        }
        let input = input_of(alloc, input)?;
        text.push_str(told(alloc, plan, condition, &input)?.as_str())?;
    }
    Ok(text)
}

fn told(alloc: Global, plan: &Plan, condition: &PathCond, input: &Input) -> Result<String, Wrong>
    requires { (i : Input) → fits_store condition.now.terms i ≡ fits_of plan.now.program i }
{
    if !fits(plan.program(), input) {
        return Err(Wrong::NoInput);
    }
    let words = condition.terms.values(input)?;
    let holds = if condition
        .conditions
        .as_slice()
        .iter()
        .all(|t| is_nonzero(words.as_slice(), *t))
    {
        "yes"
    } else {
        "no"
    };
    let end = run(alloc, plan.program(), plan.costs(), input)?;
    let end = end_told(alloc, end)?;
    Ok(format!(in alloc; "{holds} {end}")?)
}

fn is_nonzero(words: &[u32], term: u32) -> bool {
    match words.get(term as usize) {
        Some(word) => *word != 0,
        None => false,
    }
}

fn end_told(alloc: Global, end: RunEnd) -> Result<String, AllocError> {
    match end {
        RunEnd::Ends { cost } => format!(in alloc; "{cost}"),
        RunEnd::Undefined => String::from_str(alloc, "undefined"),
        RunEnd::OverBound => String::from_str(alloc, "overbound"),
    }
}
