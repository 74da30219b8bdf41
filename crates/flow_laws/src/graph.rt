//! The parts of a flat graph.

ghost use Rattle.std.specs.Prelude.{◌≡◌};
ghost use Rattle.flow_laws.specs.Paths.{is_in_list, most_turns};

use c_tree::BlockName;
use sqlite_items::Items;

/// How an edge leaves its source: as what comes next, or as a condition that holds or does not.
#[derive(Clone, Copy, Debug, PartialEq, Eq)]
pub enum Way {
    Next,
    True,
    False,
}

/// An edge, from the number of a node to that of a node. Edges are numbered by their sources, `True` before `False`.
#[derive(Clone, Copy, Debug, PartialEq, Eq)]
pub struct Edge {
    pub from: u32,
    pub to: u32,
    pub way: Way,
}

/// A node. `block` is the block that it is a copy of; Entry, Exit and landings have none. `chain` has the call blocks
/// in whose callees' copies it stands, outermost first. `cap` is its scale with calls inlined, which for Entry, Exit
/// and landings is that of their place; no list that is contiguous from Entry and keeps the bounds of loops leaves it
/// more often.
#[derive(Drop)]
pub struct Node {
    pub block: Option<BlockName>,
    pub chain: Items<BlockName>,
    pub cap: u64,
}

/// A copy of a loop. `bound` is how often its body may be entered within one entry of the loop, from 1 to 1,048,576 in
/// a graph of a checked program. `into` has the numbers of the edges that enter it from outside, in ascending order;
/// `turn` is the number of the `True` of its condition. `at_end` tells `do`, whose body is entered once before its
/// condition is evaluated.
#[derive(Drop)]
pub struct Loop {
    pub bound: u32,
    pub into: Items<u16>,
    pub turn: u16,
    pub at_end: bool,
}

impl Loop {
    /// How often `turn` may be taken after each edge of `into`: `bound`, and of `do` one less.
    pub fn most_turns(&self) -> u32
        ensures { result ≡ most_turns self.now }
    {
        if self.at_end {
            self.bound.saturating_sub(1)
        } else {
            self.bound
        }
    }

    /// Whether the edge is among `into`.
    pub fn is_entered_by(&self, edge: u16) -> bool
        ensures { result ≡ is_in_list edge self.now.into }
    {
        for other in self.into.as_slice() {
            if edge == *other {
                return true;
            }
        }
        false
    }
}
