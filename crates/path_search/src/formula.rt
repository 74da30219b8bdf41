//! The formula of a list of edges, and that of the folds of its terms.

ghost use Rattle.std.specs.Prelude.{◌≡◌, ◌≤◌, true, IfOk};
ghost use Rattle.flow_laws.specs.Graphs.{graph, edges};
ghost use Rattle.flow_laws.specs.Paths.{follows};
ghost use Rattle.cond_laws.specs.TermPaths.{TermsOf};
ghost use Rattle.cond_laws.specs.Weights.{weight, most_weight};
ghost use Rattle.path_formulas.specs.FormulasOfLists.{IsFormulaOfList, SaysWhatDrives};

use bit_blast::{Blasted, blast};
use bv_fold::fold_apart;
use c_tree::NoMemory;
use cond_laws::PathCond;
use flow_graph::Plan;
use path_cond::condition;
use std::alloc::Global;

/// The formula of a list of edges.
pub(crate) fn formula_of(alloc: Global, plan: &Plan, list: &[u16]) -> Result<Blasted, NoMemory>
    requires contiguous { follows (edges (graph plan.now.program)) list.now ≡ true }
    requires light { weight plan.now.program list.now ≤ most_weight }
    ensures formula { IfOk result (λ b. IsFormulaOfList plan.now.program list.now b.cnf) }
    ensures inputs { IfOk result (λ b. b.inputs ≡ (TermsOf plan.now.program list.now).terms.inputs) }
    ensures says { IfOk result (λ b. SaysWhatDrives plan.now.program list.now b.cnf) }
{
    let condition = condition(alloc, plan, list)?;
    blast(alloc, &condition.terms, condition.conditions.as_slice())
}

/// The formula of the folds of the list's terms. It has fewer clauses, and its satisfying assignments say the same
/// inputs.
pub(crate) fn folded_formula_of(
    alloc: Global,
    plan: &Plan,
    list: &[u16],
) -> Result<Blasted, NoMemory>
    requires contiguous { follows (edges (graph plan.now.program)) list.now ≡ true }
    requires light { weight plan.now.program list.now ≤ most_weight }
    ensures inputs { IfOk result (λ b. b.inputs ≡ (TermsOf plan.now.program list.now).terms.inputs) }
    ensures says { IfOk result (λ b. SaysWhatDrives plan.now.program list.now b.cnf) }
{
    let PathCond { terms, conditions } = condition(alloc, plan, list)?;
    let folded = fold_apart(alloc, terms, conditions.as_slice())?;
    // Each operator names terms before it.
    folded.terms.len();
    blast(alloc, &folded.terms, folded.numbers.as_slice())
}
