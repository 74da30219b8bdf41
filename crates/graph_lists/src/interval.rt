//! Where loop copies stand.

ghost use Rattle.std.specs.Prelude.{◌≡◌, ◌<◌, ◌^◌, ◌++◌, length, IfOk};
ghost use Rattle.graph_lists.specs.Spans.{ends_spans, spot_spans};

use crate::spot::{Ends, Spot};
use c_tree::NoMemory;
use sqlite_items::Items;
use std::alloc::Global;

/// Where a copy of a loop stands: its nodes are those from `from` on that are below `past`, and `test` is that of its
/// condition.
#[derive(Clone, Copy, Debug, PartialEq, Eq)]
pub struct Span {
    pub from: u32,
    pub past: u32,
    pub test: u32,
}

/// Where the loop copies stand, by their conditions' nodes.
pub fn spans_of(alloc: Global, spots: &[Spot]) -> Result<Items<Span>, NoMemory>
    requires { length spots.now < 2 ^ 32 }
    ensures { IfOk result (λ spans. spans ≡ spot_spans 0 spots.now) }
{
    let mut spans = Items::new(alloc);
    for test in 0..spots.len() {
        push_span(test as u32, &spots[test], &mut spans)?;
    }
    Ok(spans)
}

fn push_span(test: u32, spot: &Spot, spans: &mut Items<Span>) -> Result<(), NoMemory>
    ensures { IfOk result (λ u. spans.new ≡ spans.old ++ ends_spans test spot.now.ends) }
{
    match spot.ends {
        Ends::Never => Ok(()),
        Ends::Once => Ok(()),
        Ends::Choice => Ok(()),
        Ends::Loop(turn) => {
            let (from, past) = (turn.from, turn.past);
            spans.push(Span { from, past, test })?;
            Ok(())
        }
    }
}
