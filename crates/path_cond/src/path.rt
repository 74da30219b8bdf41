//! The condition of a list of edges.

ghost use Rattle.std.specs.Prelude.{◌≡◌, ◌≤◌, true, IfOk};
ghost use Rattle.c_tree.specs.declared.program.Input.{Input};
ghost use Rattle.c_tree.specs.Meaning.Runs.{fits};
ghost use Rattle.flow_laws.specs.Graphs.{graph, edges};
ghost use Rattle.flow_laws.specs.Paths.{follows};
ghost use Rattle.bv_term.specs.Stores.{fits_store};
ghost use Rattle.cond_laws.specs.Conditions.{AllBelow, Cond, FitTerms};
ghost use Rattle.cond_laws.specs.TermPaths as spec;
ghost use Rattle.cond_laws.specs.TermPaths.{TermsOf};
ghost use Rattle.term_steps.specs.Gives.{Gives};
ghost use Rattle.cond_laws.specs.Weights.{weight, most_weight};

use crate::edges::walk;
use crate::inputs::declare_inputs;
use crate::starts::start;
use bv_term::Terms;
use c_tree::NoMemory;
use cond_laws::PathCond;
use flow_graph::Plan;
use node_contents::contents_of;
use sqlite_items::Items;
use std::alloc::Global;
use term_effects::nowhere;

// No condition where the list keeps the loops' bounds, and else one that is 0.
fn broken(alloc: Global, terms: &mut Terms, keeps: bool) -> Result<Items<u32>, NoMemory>
    ensures { IfOk result (λ cs. Gives AllBelow (spec.bound_conditions keeps) terms.old terms.new cs) }
{
    if keeps {
        Ok(Items::new(alloc))
    } else {
        nowhere(alloc, terms)
    }
}

/// The terms of a list of edges that is contiguous from Entry and not too heavy, and those that are all nonzero exactly
/// at the fitting inputs that drive it. A loop's bound that the list breaks is one term more, which is 0. The time is
/// linear in the program, in the weight of the list, and at each call in the callee's locals. `NoMemory` is want of
/// memory, and the one refusal.
pub fn condition(alloc: Global, plan: &Plan, list: &[u16]) -> Result<PathCond, NoMemory>
    requires contiguous { follows (edges (graph plan.now.program)) list.now ≡ true }
    requires light { weight plan.now.program list.now ≤ most_weight }
    ensures terms { IfOk result (λ c. c ≡ TermsOf plan.now.program list.now) }
    ensures drives { IfOk result (λ c. Cond plan.now.program list.now c.terms c.conditions) }
    ensures fits { IfOk result (λ c. FitTerms c) }
    ensures inputs { IfOk result (λ c. (i : Input) → fits_store c.terms i ≡ fits plan.now.program i) }
{
    let program = plan.program();
    let mut terms = Terms::new(alloc);
    declare_inputs(&mut terms, program)?;
    let contents = contents_of(alloc, plan)?;
    let mut memory = start(alloc, &mut terms, program)?;
    let mut conditions = walk(alloc, &mut terms, plan, &contents, list, &mut memory)?;
    let more = broken(alloc, &mut terms, plan.keeps(list))?;
    conditions.append(more)?;
    Ok(PathCond { terms, conditions })
}
