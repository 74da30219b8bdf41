//! The rows of a plan, one after the other.

ghost use Rattle.std.specs.Prelude.{◌≡◌, ◌<◌, ◌-◌, ◌++◌, ◌∷◌, [], length, IfOk};
ghost use Rattle.flow_laws.specs.Graphs.{graph, edges, loops};
ghost use Rattle.ipet_rows.specs.FlowRows.{entry_row, node_row, node_rows, loop_row, loop_rows, flow_rows};
ghost use Rattle.ipet_rows.specs.CapsBound.{costs_of_edges};

use crate::factors::{node_factor, push_term, turn_factor};
use c_tree::NoMemory;
use flow_graph::{Loop, Plan};
use lin_rows::{Row, RowKind};
use sqlite_items::Items;
use std::alloc::Global;

/// The rows in their order.
pub(crate) fn flow_rows(alloc: Global, plan: &Plan) -> Result<Items<Row>, NoMemory>
    ensures { IfOk result (λ rows. rows ≡ flow_rows (graph plan.now.program)) }
{
    let mut rows = Items::new(alloc);
    rows.push(entry_row(alloc)?)?;
    push_node_rows(alloc, plan, &mut rows)?;
    push_loop_rows(alloc, plan, &mut rows)?;
    Ok(rows)
}

// Edge 0 is taken once.
fn entry_row(alloc: Global) -> Result<Row, NoMemory>
    ensures { IfOk result (λ row. row ≡ entry_row) }
{
    Ok(Row {
        terms: Items::from_slice(alloc, &[(0, 1)])?,
        kind: RowKind::Equal,
        right: 1,
    })
}

fn push_node_rows(alloc: Global, plan: &Plan, rows: &mut Items<Row>) -> Result<(), NoMemory>
    ensures { IfOk result (λ u. rows.new ≡ rows.old ++ node_rows (edges (graph plan.now.program)) 2
        (length (graph plan.now.program) - 2)) }
{
    for n in 2..plan.nodes() {
        rows.push(node_row(alloc, plan, n)?)?;
    }
    Ok(())
}

// What leaves the node minus what enters it is 0.
fn node_row(alloc: Global, plan: &Plan, n: u32) -> Result<Row, NoMemory>
    ensures { IfOk result (λ row. row ≡ node_row (edges (graph plan.now.program)) n) }
{
    let mut terms = Items::new(alloc);
    for e in 0..plan.edges() as u16 {
        push_term(&mut terms, e, node_factor(n, e, plan.edge(e)))?;
    }
    Ok(Row {
        terms,
        kind: RowKind::Equal,
        right: 0,
    })
}

fn push_loop_rows(alloc: Global, plan: &Plan, rows: &mut Items<Row>) -> Result<(), NoMemory>
    ensures { IfOk result (λ u. rows.new ≡ rows.old ++ loop_rows (edges (graph plan.now.program))
        (loops (graph plan.now.program))) }
{
    for l in plan.loops() {
        rows.push(loop_row(alloc, plan, l)?)?;
    }
    Ok(())
}

// The turns of the loop copy are at most as many as its entries allow.
fn loop_row(alloc: Global, plan: &Plan, l: &Loop) -> Result<Row, NoMemory>
    ensures { IfOk result (λ row. row ≡ loop_row (edges (graph plan.now.program)) l.now) }
{
    let mut terms = Items::new(alloc);
    for e in 0..plan.edges() as u16 {
        push_term(&mut terms, e, turn_factor(l, e))?;
    }
    Ok(Row {
        terms,
        kind: RowKind::AtMost,
        right: 0,
    })
}

/// The cost of each edge.
pub(crate) fn edge_costs(alloc: Global, plan: &Plan) -> Result<Items<u64>, NoMemory>
    ensures { IfOk result (λ costs. costs ≡ costs_of_edges plan.now.costs (graph plan.now.program)
        (edges (graph plan.now.program))) }
{
    let mut costs = Items::new(alloc);
    for e in 0..plan.edges() as u16 {
        costs.push(plan.cost(e))?;
    }
    Ok(costs)
}
