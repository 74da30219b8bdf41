//! Edges and loop copies, of nodes as they are laid out, and the first cap above the limit.

ghost use Rattle.std.specs.Prelude.{◌≡◌, ◌<◌, ◌≤◌, ◌^◌, ◌++◌, ◌∷◌, [], length, IfOk};
ghost use Rattle.flow_laws.specs.Graphs.{positions};
ghost use Rattle.graph_lists.specs.Joints.{
  outs_of,
  spot_edges,
  turn_enters,
  turn_loop,
  ends_loops,
  spot_loops,
  spot_above,
};

use crate::spot::{Ends, Spot, Turn};
use c_tree::{BlockName, NoMemory};
use flow_laws::{Edge, Loop, Way};
use sqlite_items::Items;
use std::alloc::Global;

/// The edges, by their sources, `True` before `False`.
pub fn edges_of(alloc: Global, spots: &[Spot]) -> Result<Items<Edge>, NoMemory>
    requires { length spots.now < 2 ^ 32 }
    ensures { IfOk result (λ es. es ≡ spot_edges 0 spots.now) }
{
    let mut edges = Items::new(alloc);
    for from in 0..spots.len() {
        push_edges(from as u32, &spots[from], &mut edges)?;
    }
    Ok(edges)
}

fn push_edges(from: u32, spot: &Spot, edges: &mut Items<Edge>) -> Result<(), NoMemory>
    ensures { IfOk result (λ u. edges.new ≡ edges.old ++ outs_of from spot.now) }
{
    match spot.ends {
        Ends::Never => Ok(()),
        Ends::Once => push_edge(from, spot.yes, Way::Next, edges),
        Ends::Choice | Ends::Loop(_) => {
            push_edge(from, spot.yes, Way::True, edges)?;
            push_edge(from, spot.no, Way::False, edges)
        }
    }
}

fn push_edge(from: u32, to: u32, way: Way, edges: &mut Items<Edge>) -> Result<(), NoMemory>
    ensures { IfOk result (λ u. edges.new ≡ edges.old ++ record { from = from; to = to; way = way } ∷ []) }
{
    edges.push(Edge { from, to, way })?;
    Ok(())
}

/// The loop copies, by their conditions' nodes.
pub fn loops_of(alloc: Global, spots: &[Spot], edges: &[Edge]) -> Result<Items<Loop>, NoMemory>
    requires edges { edges.now ≡ spot_edges 0 spots.now }
    requires few { length edges.now ≤ 2048 }
    ensures { IfOk result (λ ls. ls ≡ spot_loops edges.now 0 spots.now) }
{
    let mut loops = Items::new(alloc);
    let mut first: u16 = 0;
    for spot in spots {
        push_loop(alloc, spot.ends, first, edges, &mut loops)?;
        first += outs(spot);
    }
    Ok(loops)
}

// The loop copy of a condition, if it is that of a loop.
fn push_loop(
    alloc: Global,
    ends: Ends,
    first: u16,
    edges: &[Edge],
    loops: &mut Items<Loop>,
) -> Result<(), NoMemory>
    requires { length edges.now ≤ 2048 }
    ensures { IfOk result (λ u. loops.new ≡ loops.old ++ ends_loops edges.now first ends) }
{
    match ends {
        Ends::Never => Ok(()),
        Ends::Once => Ok(()),
        Ends::Choice => Ok(()),
        Ends::Loop(turn) => {
            loops.push(loop_of(alloc, turn, first, edges)?)?;
            Ok(())
        }
    }
}

/// How many edges leave a node.
pub(crate) fn outs(spot: &Spot) -> u16
    ensures { result ≡ length (outs_of 0 spot.now) }
{
    match spot.ends {
        Ends::Never => 0,
        Ends::Once => 1,
        Ends::Choice => 2,
        Ends::Loop(_) => 2,
    }
}

fn loop_of(alloc: Global, turn: Turn, first: u16, edges: &[Edge]) -> Result<Loop, NoMemory>
    requires { length edges.now ≤ 2048 }
    ensures { IfOk result (λ l. l ≡ turn_loop edges.now first turn) }
{
    let mut into = Items::new(alloc);
    for number in 0..edges.len() {
        if enters(turn, edges[number]) {
            into.push(number as u16)?;
        }
    }
    Ok(Loop {
        bound: turn.bound,
        into,
        turn: first,
        at_end: turn.at_end,
    })
}

fn enters(turn: Turn, edge: Edge) -> bool
    ensures { result ≡ turn_enters turn edge }
{
    let inside = turn.from <= edge.from && edge.from < turn.past;
    edge.to == turn.from && !inside
}

/// The block of the first block copy whose cap is above 2^40.
pub fn first_above(spots: &[Spot]) -> Option<BlockName>
    ensures { result ≡ spot_above (2 ^ 40) spots.now }
{
    for spot in spots {
        if spot.node.cap > 1_099_511_627_776 {
            if let Some(block) = spot.node.block {
                return Some(block);
            }
        }
    }
    None
}
