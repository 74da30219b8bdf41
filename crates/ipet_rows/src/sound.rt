//! Rows of a plan that the counts of each of its driven paths meet.

ghost use Rattle.std.specs.Prelude.{◌≡◌, ◌++◌, ◌∷◌, [], length, IfOk, IfErr};
ghost use Rattle.flow_laws.specs.Graphs.{graph, edges};
ghost use Rattle.lin_rows.specs.Names.{NamesBelow, NamesOnce};
ghost use Rattle.ipet_rows.specs.FlowRows.{flow_rows};
ghost use Rattle.ipet_rows.specs.Counts.{HoldsOnPaths, HoldOnPaths};
ghost use Rattle.ipet_rows.specs.CapsBound.{costs_of_edges};
ghost use Rattle.ipet_rows.specs.Sound.{AreSoundRows};

use crate::building::{edge_costs, flow_rows};
use c_tree::NoMemory;
use flow_graph::Plan;
use lin_rows::{Objective, Row, RowKind, Rows};
use sqlite_items::Items;
use std::alloc::Global;
use std::marker::Model;

/// Rows over the edges of a plan, which the counts of each driven path of the plan meet, with the cost of each edge.
#[derive(Drop)]
pub struct SoundRows<'p> {
    alloc: Global,
    plan: &'p Plan,
    rows: Rows,
    objective: Objective,
}

impl<'p> Model for SoundRows<'p> {
    ghost use Rattle.ipet_rows.specs.Sound.{PlanRows, AreSound};
    ghost use Rattle.c_tree.specs.contracts.tree.Stmt as stmt;
    ghost use Rattle.c_tree.specs.contracts.tree.Expr as expr;
    ghost use Rattle.std.specs.Coded.{codes};

    ghost Value = { PlanRows };

    ghost coded = { Prim.hlevel (codes, stmt.the_row.coded, expr.the_row.coded) };

    ghost view = { λ s. record { plan = s.plan.now; rows = s.rows.rows; costs = s.objective.costs } };

    ghost invariant = { λ s. AreSound s.plan.now s.rows s.objective.costs };
}

/// The rows of a plan, in this order: edge 0 is taken once; for each node from 2 on, what leaves it minus what enters
/// it is 0; for each loop copy, `turn` minus the bound times `into` is at most 0, where `do` has the bound less one.
/// Terms stand by their edges in ascending order; an edge from a node to itself has none in that node's row, and a
/// factor 0 gives none.
pub fn rows<'p>(alloc: Global, plan: &'p Plan) -> Result<SoundRows<'p>, NoMemory>
    ensures plan { IfOk result (λ s. s.plan ≡ plan.now) }
    ensures rows { IfOk result (λ s. s.rows ≡ flow_rows (graph plan.now.program)) }
{
    let program = plan.program();
    let list = flow_rows(alloc, plan)?;
    let costs = edge_costs(alloc, plan)?;
    Ok(SoundRows {
        alloc,
        plan,
        rows: Rows {
            rows: list,
            edges: plan.edges(),
        },
        objective: Objective { costs },
    })
}

impl<'p> SoundRows<'p> {
    /// The plan.
    pub fn plan(&self) -> &'p Plan
        ensures { result.now ≡ self.now.plan }
    {
        self.plan
    }

    /// The rows, which are over the plan's edges and name none twice. The counts of each driven path meet them.
    pub fn rows(&self) -> &Rows
        ensures value { result.now.rows ≡ self.now.rows }
        ensures edges { result.now.edges ≡ length (edges (graph self.now.plan.program)) }
        ensures hold { HoldOnPaths self.now.plan.program self.now.rows }
        ensures sound { AreSoundRows self.now }
    {
        &self.rows
    }

    /// The cost of each edge: that of its source's block, and 0 for Entry and landings.
    pub fn objective(&self) -> &Objective
        ensures value { result.now.costs ≡ self.now.costs }
        ensures costs { self.now.costs ≡ costs_of_edges self.now.plan.costs (graph self.now.plan.program)
            (edges (graph self.now.plan.program)) }
    {
        &self.objective
    }
}

/// One row over the edges of a plan, which the counts of each driven path of the plan meet.
#[derive(Drop)]
pub struct SoundRow<'p> {
    plan: &'p Plan,
    row: Row,
}

impl<'p> Model for SoundRow<'p> {
    ghost use Rattle.ipet_rows.specs.Sound.{PlanRow, IsSound};
    ghost use Rattle.c_tree.specs.contracts.tree.Stmt as stmt;
    ghost use Rattle.c_tree.specs.contracts.tree.Expr as expr;
    ghost use Rattle.std.specs.Coded.{codes};

    ghost Value = { PlanRow };

    ghost coded = { Prim.hlevel (codes, stmt.the_row.coded, expr.the_row.coded) };

    ghost view = { λ s. record { plan = s.plan.now; row = s.row } };

    ghost invariant = { λ s. IsSound s.plan.now s.row };
}

impl<'p> SoundRow<'p> {
    /// This row, which names only edges of the plan, none twice, and which the counts of each driven path of the plan
    /// meet.
    pub fn of(plan: &'p Plan, row: Row) -> SoundRow<'p>
        requires holds { HoldsOnPaths plan.now.program row }
        requires below { NamesBelow (length (edges (graph plan.now.program))) row.terms }
        requires once { NamesOnce row.terms }
        ensures plan { result.plan ≡ plan.now }
        ensures row { result.row ≡ row }
    {
        SoundRow { plan, row }
    }
}

impl<'p> SoundRows<'p> {
    /// These rows and then this one, which is of the same plan; both come back for want of memory.
    pub fn with_row(self, row: SoundRow<'p>) -> Result<SoundRows<'p>, (SoundRows<'p>, SoundRow<'p>)>
        requires { row.plan ≡ self.plan }
        ensures plan { IfOk result (λ s. s.plan ≡ self.entry.plan) }
        ensures rows { IfOk result (λ s. s.rows ≡ self.entry.rows ++ row.entry.row ∷ []) }
        ensures costs { IfOk result (λ s. s.costs ≡ self.entry.costs) }
        ensures back { IfErr result (λ both. (both.0 ≡ self.entry) × (both.1 ≡ row.entry)) }
    {
        let SoundRows {
            alloc,
            plan,
            rows,
            objective,
        } = self;
        let Rows {
            rows: mut list,
            edges,
        } = rows;
        // An empty row makes the room; then the row takes its place.
        let at = list.len();
        if list.push(empty_row(alloc)).is_err() {
            let rows = Rows { rows: list, edges };
            let all = SoundRows {
                alloc,
                plan,
                rows,
                objective,
            };
            return Err((all, row));
        }
        let SoundRow { plan: _, row } = row;
        list.set(at, row);
        Ok(SoundRows {
            alloc,
            plan,
            rows: Rows { rows: list, edges },
            objective,
        })
    }
}

// A row without terms. It takes no memory.
fn empty_row(alloc: Global) -> Row {
    Row {
        terms: Items::new(alloc),
        kind: RowKind::AtMost,
        right: 0,
    }
}
