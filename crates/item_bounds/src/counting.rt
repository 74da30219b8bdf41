//! How often a list has each edge of a plan.

ghost use Rattle.std.specs.Prelude.{◌≡◌, ◌≤◌, ◌+◌, ◌==◌, ℕ, length, slice_index, if◌then◌else◌, IfOk};
ghost use Rattle.flow_laws.specs.Graphs.{graph, edges};
ghost use Rattle.flow_laws.specs.Paths.{edge_count};

use c_tree::NoMemory;
use flow_graph::Plan;
use sqlite_items::Items;
use std::alloc::Global;

// For each edge of the plan a count that is at most that of the list: the same, unless it leaves `u64`.
pub(crate) fn counts_of(alloc: Global, plan: &Plan, list: &[u16]) -> Result<Items<u64>, NoMemory>
    ensures edges { IfOk result (λ ns. length ns ≡ length (edges (graph plan.now.program))) }
    ensures most { IfOk result (λ ns. (e : ℕ) → slice_index ns e ≤ edge_count list.now e) }
{
    let mut counts = zeros(alloc, plan.edges())?;
    for e in list {
        count_one(&mut counts, usize::from(*e));
    }
    Ok(counts)
}

fn zeros(alloc: Global, edges: u32) -> Result<Items<u64>, NoMemory>
    ensures edges { IfOk result (λ ns. length ns ≡ edges) }
    ensures zeros { IfOk result (λ ns. (e : ℕ) → slice_index ns e ≡ 0) }
{
    let mut counts = Items::new(alloc);
    for _ in 0..edges {
        counts.push(0)?;
    }
    Ok(counts)
}

// Once more for this edge, where it is there.
fn count_one(counts: &mut Items<u64>, e: usize)
    ensures edges { length counts.new ≡ length counts.old }
    ensures most { (j : ℕ) → slice_index counts.new j ≤ (if e == j then 1 else 0) + slice_index counts.old j }
{
    if e < counts.len() {
        let count = counts.as_slice()[e];
        counts.set(e, count.saturating_add(1));
    }
}
