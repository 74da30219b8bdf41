//! Plans.

ghost use Rattle.std.specs.Prelude.{◌≡◌, ◌<◌, ◌≤◌, ◌^◌, None, Some, ◌&&◌, nat_lt, length, slice_get, map};
ghost use Rattle.std.specs.List.{list_all};
ghost use Rattle.c_tree.specs.Meaning.Claims.{AreCostsOf};
ghost use Rattle.c_tree.specs.Keeping.WellFormed.{WellFormed};
ghost use Rattle.flow_laws.specs.Graphs.{graph, nodes, edges, loops, loop_copies};
ghost use Rattle.flow_laws.specs.Paths.{edge_cost, follows, keeps_each};
ghost use Rattle.flow_graph.specs.Limits.{block_copies, size_fault};
ghost use Rattle.flow_graph.specs.Landings.{calls};
ghost use Rattle.graph_lists.specs.Leaving.{AreOuts};
ghost use Rattle.flow_graph.specs.Plans.{IsPlan, IsPlanned, plan_with, keeps_all};
ghost use Rattle.graph_lists.specs.Spans.{span_of};
ghost use Rattle.graph_lists.specs.Touches.{touches_of};

use crate::lists::{edge_cost, follows};
use c_tree::{BlockName, Costs, Program};
use flow_laws::{Edge, Loop, Node};
use graph_lists::{Outs, Span, Spot, Touch, keeps_all};
use sqlite_items::Items;
use std::marker::Model;

/// A well-formed program with its costs and the flat graph of its entry function, calls inlined. Contracts see the
/// program and its costs: nodes, edges and loop copies are those of the program's graph, so its laws hold of every
/// plan. The graph has at most 1,024 block copies and 2,048 edges, and no cap of it is above 2^40.
#[derive(Drop)]
pub struct Plan {
    program: Program,
    costs: Costs,
    spots: Items<Spot>,
    edges: Items<Edge>,
    outs: Items<Outs>,
    loops: Items<Loop>,
    spans: Items<Span>,
    touches: Items<Items<Touch>>,
    copies: u32,
}

impl Model for Plan {
    ghost use Rattle.flow_graph.specs.Plans.{Planned, IsPlan, plan_with};
    ghost use Rattle.c_tree.specs.contracts.tree.Stmt as stmt;
    ghost use Rattle.c_tree.specs.contracts.tree.Expr as expr;
    ghost use Rattle.std.specs.Coded.{codes};

    ghost Value = { Planned };

    ghost coded = { Prim.hlevel (codes, stmt.the_row.coded, expr.the_row.coded) };

    ghost view = { λ p. plan_with p.program p.costs };

    ghost invariant = { λ p. IsPlan p.program p.costs p.spots p.edges p.outs p.loops p.spans p.touches p.copies };
}

impl Plan {
    /// The plan of this program and these costs, whose graph this is.
    pub(crate) fn of_graph(
        program: Program,
        costs: Costs,
        spots: Items<Spot>,
        edges: Items<Edge>,
        outs: Items<Outs>,
        loops: Items<Loop>,
        spans: Items<Span>,
        touches: Items<Items<Touch>>,
        copies: u32,
    ) -> Plan
        requires { IsPlan program costs spots edges outs loops spans touches copies }
        ensures { result ≡ plan_with program costs }
    {
        Plan {
            program,
            costs,
            spots,
            edges,
            outs,
            loops,
            spans,
            touches,
            copies,
        }
    }

    /// The program. It is well-formed, and its graph is within the limits; the costs are of this program.
    pub fn program(&self) -> &Program
        ensures value { result.now ≡ self.now.program }
        ensures planned { IsPlanned self.now }
        ensures formed { WellFormed self.now.program }
        ensures allowed { size_fault (graph self.now.program) ≡ None }
    {
        &self.program
    }

    /// The costs, which are of this program.
    pub fn costs(&self) -> &Costs
        ensures value { result.now ≡ self.now.costs }
        ensures costed { AreCostsOf self.now.program self.now.costs }
    {
        &self.costs
    }

    /// How many nodes there are, Entry and Exit among them.
    pub fn nodes(&self) -> u32
        ensures { result ≡ length (graph self.now.program) }
    {
        self.spots.len() as u32
    }

    /// How many edges there are, at most 2,048.
    pub fn edges(&self) -> u32
        ensures count { result ≡ length (edges (graph self.now.program)) }
        ensures few { result ≤ 2048 }
    {
        self.edges.len() as u32
    }

    /// How many nodes are block copies, at most 1,024.
    pub fn copies(&self) -> u32
        ensures count { result ≡ block_copies (graph self.now.program) }
        ensures few { result ≤ 1024 }
    {
        self.copies
    }

    /// The edge number `e`.
    pub fn edge(&self, e: u16) -> &Edge
        requires { e < length (edges (graph self.now.program)) }
        ensures { slice_get (edges (graph self.now.program)) e ≡ Some result.now }
    {
        &self.edges.as_slice()[e as usize]
    }

    /// The cost of the block of the edge's source, and 0 for Entry and landings. It is below 2^32.
    pub fn cost(&self, e: u16) -> u64
        requires { e < length (edges (graph self.now.program)) }
        ensures value { result ≡ edge_cost self.now.costs (graph self.now.program) e }
        ensures small { result < 2 ^ 32 }
    {
        edge_cost(&self.costs, self.edges.as_slice(), self.spots.as_slice(), e)
    }

    /// The node number `n`. Its cap is at most 2^40.
    pub fn node(&self, n: u32) -> &Node
        requires { n < length (graph self.now.program) }
        ensures value { slice_get (nodes (graph self.now.program)) n ≡ Some result.now }
        ensures cap { result.now.cap ≤ 2 ^ 40 }
    {
        &self.spots.as_slice()[n as usize].node
    }

    /// Of a landing the block of its call; no other node has one.
    pub fn call(&self, n: u32) -> Option<BlockName>
        requires { n < length (graph self.now.program) }
        ensures { slice_get (calls (graph self.now.program)) n ≡ Some result }
    {
        self.spots.as_slice()[n as usize].call
    }

    /// The edges that leave the node number `n`: none where it is Exit, two where it is a condition, else one. It takes
    /// constant time.
    pub fn outs(&self, n: u32) -> Outs
        requires { n < length (graph self.now.program) }
        ensures { AreOuts (edges (graph self.now.program)) n result }
    {
        self.outs.as_slice()[n as usize]
    }

    /// Where each of `loops` stands.
    pub fn spans(&self) -> &[Span]
        ensures { result.now ≡ map span_of (loop_copies (graph self.now.program)) }
    {
        self.spans.as_slice()
    }

    /// The loop copies, by their conditions' nodes.
    pub fn loops(&self) -> &[Loop]
        ensures { result.now ≡ loops (graph self.now.program) }
    {
        self.loops.as_slice()
    }

    /// The loops that the edge number `e` enters, and that of which it is the turn, in the order of `loops`. It takes
    /// constant time.
    pub fn touches(&self, e: u16) -> &[Touch]
        requires { e < length (edges (graph self.now.program)) }
        ensures { result.now ≡ touches_of 0 (loops (graph self.now.program)) e }
    {
        self.touches.as_slice()[e as usize].as_slice()
    }

    /// Whether the list names only edges and is contiguous from Entry.
    pub fn follows(&self, list: &[u16]) -> bool
        ensures { result ≡ follows (edges (graph self.now.program)) list.now }
    {
        follows(self.edges.as_slice(), list)
    }

    /// Whether the list names only edges and keeps every loop's bound: after each edge that enters a loop copy from
    /// outside, up to the next one, it has the `True` of the loop's condition at most as often as its bound says; of
    /// `do`, once less. One pass over the list with a counter for each loop: at each edge it looks at the loops that
    /// the edge enters or turns.
    pub fn keeps(&self, list: &[u16]) -> bool
        ensures { result ≡ keeps_all (graph self.now.program) list.now }
    {
        keeps_all(self.touches.as_slice(), list)
    }
}
