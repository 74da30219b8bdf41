//! The weight of a list of edges.

ghost use Rattle.std.specs.Prelude.{◌≡◌, ◌<◌, ◌*◌, All, length, slice_get};
ghost use Rattle.flow_laws.specs.Graphs.{graph, edges};
ghost use Rattle.flow_laws.specs.Paths.{edge_count};
ghost use Rattle.cond_laws.specs.Weights as spec;
ghost use Rattle.path_weight.specs.Capped.{capped_weight};

use crate::blocks::block_weight;
use flow_graph::Plan;
use flow_laws::laws::edges::edges_join_nodes;

/// The weight of a list of edges of the plan: the sum over its edges of 16 and what the edge's source weighs, which
/// is the sum over the expressions of its statements, arguments, condition or returned value. Where the sum would
/// pass 64 bits it is their last value. It takes no memory; its time is that of going, for each edge of the plan,
/// along the list, and for each that the list has, through the statements of one function.
pub fn weight(plan: &Plan, list: &[u16]) -> u64
    requires { All (λ e. e < length (edges (graph plan.now.program))) list.now }
    ensures { result ≡ spec.weight plan.now.program list.now }
{
    let mut sum: u64 = 0;
    for e in 0..plan.edges() as u16 {
        sum = sum.saturating_add(weight_of_all(plan, e, times(list, e)));
    }
    sum
}

// How often a list has an edge.
fn times(list: &[u16], e: u16) -> u64
    ensures { result ≡ edge_count list.now e }
{
    let mut times = 0;
    for other in list {
        if *other == e {
            times += 1;
        }
    }
    times
}

// The weight of an edge so many times.
fn weight_of_all(plan: &Plan, e: u16, times: u64) -> u64
    requires { e < length (edges (graph plan.now.program)) }
    ensures { result ≡ capped_weight
        (spec.edge_weight plan.now.program (slice_get (edges (graph plan.now.program)) e) * times) }
{
    if times == 0 {
        0
    } else {
        edge_weight(plan, e).saturating_mul(times)
    }
}

fn edge_weight(plan: &Plan, e: u16) -> u64
    requires { e < length (edges (graph plan.now.program)) }
    ensures { result ≡ capped_weight (spec.edge_weight plan.now.program (slice_get (edges (graph plan.now.program)) e)) }
{
    let program = plan.program();
    let from = plan.edge(e).from;
    edges_join_nodes();
    match plan.node(from).block {
        None => 16,
        Some(name) => block_weight(program, name).saturating_add(16),
    }
}
