//! Whether an input drives a list of edges.

ghost use Rattle.std.specs.Prelude.{◌≡◌, ◌≤◌, ◌↔◌, true, IsTrue, IfOk};
ghost use Rattle.flow_laws.specs.Graphs.{graph, edges};
ghost use Rattle.flow_laws.specs.Paths.{follows};
ghost use Rattle.cond_laws.specs.Weights.{weight, most_weight};
ghost use Rattle.path_formulas.specs.FormulasOfLists.{IsDrivenBy};

use crate::nonzero::are_nonzero;
use c_input::fits;
use c_tree::{Input, NoMemory};
use flow_graph::Plan;
use path_cond::condition;
use std::alloc::Global;

/// Whether an input fits the program and drives a list of edges that is contiguous from Entry and not too heavy. It is
/// answered by the terms of the list, whose words are computed at the input; nothing is searched. `NoMemory` is want of
/// memory.
#[tactic(auto, using(crate::proofs::DrivenInputs::driven_exactly))]
pub fn is_driven_by(
    alloc: Global,
    plan: &Plan,
    list: &[u16],
    input: &Input,
) -> Result<bool, NoMemory>
    requires contiguous { follows (edges (graph plan.now.program)) list.now ≡ true }
    requires light { weight plan.now.program list.now ≤ most_weight }
    ensures { IfOk result (λ driven. IsTrue driven ↔ IsDrivenBy plan.now.program list.now input.now) }
{
    if !fits(plan.program(), input) {
        return Ok(false);
    }
    let condition = condition(alloc, plan, list)?;
    let words = condition.terms.values(input)?;
    Ok(are_nonzero(words.as_slice(), condition.conditions.as_slice()))
}
