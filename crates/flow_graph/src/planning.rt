//! Planning.

ghost use Rattle.std.specs.Prelude.{◌≡◌, ◌≢◌, ◌<◌, ◌≤◌, None, Some, [], length, slice_get, IfOk, IfErr, OnOk};
ghost use Rattle.c_tree.specs.Meaning.Claims.{AreCostsOf};
ghost use Rattle.c_tree.specs.Keeping.WellFormed.{WellFormed};
ghost use Rattle.flow_laws.specs.Graphs.{graph, edges};
ghost use Rattle.graph_lists.specs.Amounts.{amounts};
ghost use Rattle.flow_graph.specs.Spots.{spots};
ghost use Rattle.flow_graph.specs.Limits.{size_fault, block_copies};
ghost use Rattle.flow_graph.specs.Plans.{plan_with};
ghost use Rattle.flow_graph.specs.declared.fault.PlanFault.TheVariants as PlanFault;

use crate::fault::PlanFault;
use crate::graph::Plan;
use crate::layout::EACH;
use crate::unfold::lay_out;
use c_tree::{Costs, NoMemory, Program};
use graph_lists::{
    Spot, Weights, amounts, edges_of, first_above, loops_of, outs_by_node, spans_of,
    touches_by_edge,
};
use sqlite_items::Items;
use std::alloc::Global;
use typed_laws::program_is_well_formed;

const COPIES: Weights = Weights {
    test: 1,
    landing: 0,
};

const EDGES: Weights = Weights {
    test: 2,
    landing: 1,
};

/// The plan of a program with its costs: the flat graph of its entry function, calls inlined. Program and costs are
/// consumed, also where there is no plan; whoever needs them again copies them first.
///
/// # Errors
///
/// The first that holds, in the order of `PlanFault`; `NoMemory` may stand before any other. Sizes are measured before
/// anything is built, in time linear in the program.
pub fn plan(alloc: Global, program: Program, costs: Costs) -> Result<Plan, PlanFault>
    requires costed { AreCostsOf program costs }
    ensures plan { IfOk result (λ p. p ≡ plan_with program costs) }
    ensures whole { OnOk result (size_fault (graph program) ≡ None) }
    ensures refused { IfErr result (λ e. e ≢ PlanFault.NoMemory → size_fault (graph program) ≡ Some e) }
{
    program_is_well_formed(&program);
    let copies = check_size(alloc, &program)?;
    let spots = spots_of(alloc, &program)?;
    check_caps(&program, spots.as_slice())?;
    let edges = edges_of(alloc, spots.as_slice())?;
    let loops = loops_of(alloc, spots.as_slice(), edges.as_slice())?;
    let outs = outs_by_node(alloc, spots.as_slice())?;
    let spans = spans_of(alloc, spots.as_slice())?;
    let touches = touches_by_edge(alloc, edges.as_slice(), loops.as_slice())?;
    Ok(Plan::of_graph(
        program, costs, spots, edges, outs, loops, spans, touches, copies,
    ))
}

// How many block copies there are, where they and the edges are not too many.
fn check_size(alloc: Global, program: &Program) -> Result<u32, PlanFault>
    requires { WellFormed program.now }
    ensures copies { IfOk result (λ n. n ≡ block_copies (graph program.now)) }
    ensures few { OnOk result (block_copies (graph program.now) ≤ 1024) }
    ensures fewer { OnOk result (length (edges (graph program.now)) ≤ 2048) }
    ensures refused { IfErr result (λ e. e ≢ PlanFault.NoMemory → size_fault (graph program.now) ≡ Some e) }
{
    let copies = counted(alloc, program, COPIES)?;
    if copies > 1024 {
        return Err(PlanFault::Blocks);
    }
    // Entry's edge is one more.
    let edges = counted(alloc, program, EDGES)?;
    if edges > 2047 {
        return Err(PlanFault::Edges);
    }
    Ok(copies as u32)
}

// Refuses the first block copy whose cap is above the limit.
fn check_caps(program: &Program, laid: &[Spot]) -> Result<(), PlanFault>
    requires nodes { laid.now ≡ spots (graph program.now) }
    requires few { block_copies (graph program.now) ≤ 1024 }
    requires fewer { length (edges (graph program.now)) ≤ 2048 }
    ensures whole { OnOk result (size_fault (graph program.now) ≡ None) }
    ensures refused { IfErr result (λ e. size_fault (graph program.now) ≡ Some e) }
{
    match first_above(laid) {
        None => Ok(()),
        Some(block) => Err(PlanFault::Cap { block }),
    }
}

// The amount of the entry function.
fn counted(alloc: Global, program: &Program, weights: Weights) -> Result<u64, NoMemory>
    requires { WellFormed program.now }
    ensures { IfOk result (λ n. slice_get (amounts weights [] program.now.funcs) program.now.entry ≡ Some n) }
{
    let sums = amounts(alloc, program.funcs.as_slice(), weights)?;
    Ok(sums.as_slice()[program.entry as usize])
}

// All nodes, of which there are not too many.
fn spots_of(alloc: Global, program: &Program) -> Result<Items<Spot>, NoMemory>
    requires formed { WellFormed program.now }
    requires few { length (edges (graph program.now)) ≤ 2048 }
    ensures { IfOk result (λ s. s ≡ spots (graph program.now)) }
{
    let funcs = program.funcs.as_slice();
    let sizes = amounts(alloc, funcs, EACH)?;
    lay_out(alloc, funcs, sizes.as_slice(), program.entry)
}
