//! Lists of numbers with blanks between them.

ghost use Rattle.std.specs.Prelude.{◌<◌, ◌↔◌, All, IsTrue, length};
ghost use Rattle.flow_laws.specs.Graphs.{graph, edges};

use c_tree::Input;
use case_plans::Wrong;
use flow_graph::Plan;
use sqlite_items::Items;
use std::alloc::Global;

/// The edges of a text.
pub(crate) fn edges_of(alloc: Global, text: &str) -> Result<Vec<u16>, Wrong> {
    let mut list = Vec::new(alloc);
    for word in text.split_ascii_whitespace() {
        list.push(word.parse::<u16>().ok().ok_or(Wrong::NoCase)?)?;
    }
    Ok(list)
}

/// The input of a text.
pub(crate) fn input_of(alloc: Global, text: &str) -> Result<Input, Wrong> {
    let mut values = Items::new(alloc);
    for word in text.split_ascii_whitespace() {
        values.push(word.parse::<i64>().ok().ok_or(Wrong::NoCase)?)?;
    }
    Ok(Input { values })
}

/// Whether each of these is an edge of the plan.
pub(crate) fn are_edges(plan: &Plan, list: &[u16]) -> bool
    ensures { IsTrue result ↔ All (λ e. e < length (edges (graph plan.now.program))) list.now }
{
    let count = plan.edges();
    list.iter().all(|e| u32::from(*e) < count)
}
