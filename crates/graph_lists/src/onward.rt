//! The edges that leave each node.

ghost use Rattle.std.specs.Prelude.{◌≡◌, ◌<◌, ◌≤◌, ◌+◌, ◌^◌, length, IfOk};
ghost use Rattle.graph_lists.specs.Joints.{outs_of, spot_edges};
ghost use Rattle.graph_lists.specs.Leaving.{outs_from, all_outs};

use crate::joints::outs;
use crate::spot::{Ends, Spot};
use c_tree::NoMemory;
use sqlite_items::Items;
use std::alloc::Global;

/// The numbers of the edges that leave a node.
#[derive(Clone, Copy, Debug, PartialEq, Eq)]
pub enum Outs {
    /// None: the node is Exit.
    Nowhere,
    /// The one that leaves by `Next`.
    One(u16),
    /// Those of a condition, `True` first.
    Two(u16, u16),
}

/// The edges that leave each node.
pub fn outs_by_node(alloc: Global, spots: &[Spot]) -> Result<Items<Outs>, NoMemory>
    requires { length (spot_edges 0 spots.now) ≤ 2048 }
    ensures { IfOk result (λ all. all ≡ all_outs 0 spots.now) }
{
    let mut all = Items::new(alloc);
    let mut first: u16 = 0;
    for spot in spots {
        all.push(outs_from(first, spot.ends))?;
        first += outs(spot);
    }
    Ok(all)
}

// The edges of these ends, of which the first has this number.
fn outs_from(first: u16, ends: Ends) -> Outs
    requires { first + 1 < 2 ^ 16 }
    ensures { result ≡ outs_from first ends }
{
    match ends {
        Ends::Never => Outs::Nowhere,
        Ends::Once => Outs::One(first),
        Ends::Choice => Outs::Two(first, first + 1),
        Ends::Loop(_) => Outs::Two(first, first + 1),
    }
}
