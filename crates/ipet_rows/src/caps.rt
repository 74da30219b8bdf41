//! The box of the caps.

ghost use Rattle.std.specs.Prelude.{◌≡◌, ◌≤◌, ◌<◌, ◌^◌, length, slice_get, IfOk};
ghost use Rattle.c_tree.specs.Keeping.WellFormed.{WellFormed};
ghost use Rattle.flow_laws.specs.Graphs.{graph, edges};
ghost use Rattle.ipet_rows.specs.CapsBound.{cap_at, caps_of_edges};

use c_tree::{NoMemory, Program};
use flow_graph::Plan;
use lin_rows::CountBox;
use sqlite_items::Items;
use std::alloc::Global;

/// The box of counts from 0 to the cap of each edge.
pub fn caps_box(alloc: Global, plan: &Plan) -> Result<CountBox, NoMemory>
    ensures { IfOk result (λ b. b.limits ≡ caps_of_edges (graph plan.now.program) (edges (graph plan.now.program))) }
{
    let limits = limits(alloc, plan, plan.program())?;
    Ok(CountBox { limits })
}

fn limits(alloc: Global, plan: &Plan, program: &Program) -> Result<Items<(u64, u64)>, NoMemory>
    requires program { program.now ≡ plan.now.program }
    requires formed { WellFormed program.now }
    ensures { IfOk result (λ limits. limits ≡ caps_of_edges (graph plan.now.program) (edges (graph plan.now.program))) }
{
    let mut limits = Items::new(alloc);
    for e in 0..plan.edges() as u16 {
        limits.push((0, cap_at(plan, e)))?;
    }
    Ok(limits)
}

// The cap of the edge's source.
fn cap_at(plan: &Plan, e: u16) -> u64
    requires formed { WellFormed plan.now.program }
    requires edge { e < length (edges (graph plan.now.program)) }
    ensures value { result ≡ cap_at (graph plan.now.program) (slice_get (edges (graph plan.now.program)) e) }
    ensures most { result ≤ 2 ^ 40 }
{
    plan.node(plan.edge(e).from).cap
}
