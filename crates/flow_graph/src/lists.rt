//! Lists of edges: whether they follow one another, and what an edge costs.

ghost use Rattle.std.specs.Prelude.{◌≡◌, ◌<◌, ◌^◌, slice_get};
ghost use Rattle.c_tree.specs.Meaning.Claims.{block_cost};
ghost use Rattle.flow_laws.specs.Paths.{follows};
ghost use Rattle.flow_graph.specs.Plans.{cost_of_source};

use c_tree::{BlockName, Costs};
use flow_laws::Edge;
use graph_lists::Spot;

pub(crate) fn follows(edges: &[Edge], list: &[u16]) -> bool
    ensures { result ≡ follows edges.now list.now }
{
    let mut at = 0;
    for number in list {
        let Some(edge) = edge_at(edges, *number) else {
            return false;
        };
        if edge.from != at {
            return false;
        }
        at = edge.to;
    }
    true
}

fn edge_at(edges: &[Edge], number: u16) -> Option<Edge>
    ensures { result ≡ slice_get edges.now number }
{
    edges.get(number as usize).copied()
}

/// The cost of the block of an edge's source.
pub(crate) fn edge_cost(costs: &Costs, edges: &[Edge], spots: &[Spot], number: u16) -> u64
    ensures value { result ≡ cost_of_source costs.now spots.now (slice_get edges.now number) }
    ensures small { result < 2 ^ 32 }
{
    let Some(edge) = edge_at(edges, number) else {
        return 0;
    };
    let Some(spot) = spots.get(edge.from as usize) else {
        return 0;
    };
    match spot.node.block {
        None => 0,
        Some(block) => block_cost(costs, block),
    }
}

fn block_cost(costs: &Costs, block: BlockName) -> u64
    ensures value { result ≡ block_cost costs.now block }
    ensures small { result < 2 ^ 32 }
{
    let Some(row) = costs.by_func.get(block.func as usize) else {
        return 0;
    };
    let cost = row.as_slice().get(block.number as usize).copied();
    u64::from(cost.unwrap_or(0))
}
