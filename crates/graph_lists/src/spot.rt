//! Nodes with their ends, as they are laid out.

use c_tree::BlockName;
use flow_laws::Node;

/// A copy of a loop: its nodes are those from `from` on that are below `past`. `bound` is how often its body may be
/// entered, and `at_end` tells `do`.
#[derive(Clone, Copy)]
pub struct Turn {
    pub from: u32,
    pub past: u32,
    pub bound: u32,
    pub at_end: bool,
}

/// The ends of a node: none, one, or those of a condition, which may be that of a loop.
#[derive(Clone, Copy)]
pub enum Ends {
    Never,
    Once,
    Choice,
    Loop(Turn),
}

/// A node, of a landing the block of its call, and where its `True` or its `Next` leads (`yes`) and its `False` (`no`).
#[derive(Drop)]
pub struct Spot {
    pub node: Node,
    pub call: Option<BlockName>,
    pub ends: Ends,
    pub yes: u32,
    pub no: u32,
}
