//! The peak of a plan, from the tree of its program.

ghost use Rattle.std.specs.Prelude.{◌≡◌, ◌≤◌, ◌^◌, pos, IfOk};
ghost use Rattle.c_tree.specs.Meaning.Claims.{Above};
ghost use Rattle.peak_laws.specs.Answers.{peak_value, peak_counts, peak_multipliers};
ghost use Rattle.peak_laws.specs.Magnitudes.{cap_cost, excess};
ghost use Rattle.ipet_peak.specs.Trees.{part_of, FitsCaps, KeepsWays};
ghost use Rattle.peak_laws.specs.Peaks.{IsPeakOf};

use crate::ahead::all_to;
use crate::flows::{Amounts, push_flows};
use crate::growing::program_tree;
use crate::potentials::{from_entry, push, push_potentials};
use crate::tree::Tree;
use crate::turns::push_turns;
use c_tree::NoMemory;
use flow_graph::Plan;
use lin_rows::Multipliers;
use peak_laws::Peak;
use run_laws::costs_are_small;
use sqlite_items::Items;
use std::alloc::Global;

// The part is left once, by its end.
const ONCE: Amounts = Amounts {
    next: 1,
    breaks: 0,
    continues: 0,
    returns: 0,
};

/// The value, the counts and the multipliers of a part that is entered once.
pub(crate) fn peak_of_tree(alloc: Global, tree: &Tree) -> Result<Peak, NoMemory>
    requires keeps { KeepsWays tree.now }
    requires light { cap_cost (part_of tree.now) ≤ 2 ^ 124 }
    requires room { excess (part_of tree.now) ≤ 2 ^ 124 }
    requires fit { FitsCaps (part_of tree.now) 1 }
    ensures value { IfOk result (λ p. p.value ≡ peak_value (part_of tree.now)) }
    ensures counts { IfOk result (λ p. p.counts ≡ peak_counts (part_of tree.now)) }
    ensures divisor { IfOk result (λ p. p.by.d ≡ pos 1) }
    ensures multipliers { IfOk result (λ p. p.by.y ≡ peak_multipliers (part_of tree.now)) }
{
    let value = from_entry(tree, all_to(0));
    let mut counts = Items::new(alloc);
    counts.push(1)?;
    push_flows(tree, ONCE, &mut counts)?;
    let mut y = Items::new(alloc);
    push(value, &mut y)?;
    push_potentials(tree, all_to(0), &mut y)?;
    push_turns(tree, &mut y)?;
    let by = Multipliers { d: 1, y };
    Ok(Peak { counts, value, by })
}

/// The peak of a plan (Li and Malik): the greatest cost of whole counts that meet the plan's own rows, in the unit of
/// the cost table; counts that meet them and cost it; and multipliers whose dual value over the box from 0 to the caps
/// is the same number. No rows that were added to the plan's are looked at. No run of a fitting input costs more.
///
/// It is refused for want of memory alone. Counts come by multiplication: no loop is walked through. Its time grows
/// with the edges times the height of the tree of parts, in which a list of statements is as high as it is long, and
/// with the text of each callee times the calls of it.
pub fn peak(alloc: Global, plan: &Plan) -> Result<Peak, NoMemory>
    ensures peak { IfOk result (λ peak. IsPeakOf plan.now peak) }
    ensures above { IfOk result (λ peak. Above plan.now.program plan.now.costs peak.value) }
{
    // It computes nothing: its clause says that the costs leave room for what follows.
    costs_are_small(plan.costs());
    let tree = program_tree(alloc, plan.program(), plan.costs())?;
    peak_of_tree(alloc, tree.get())
}
