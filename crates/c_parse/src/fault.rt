//! Why nothing was read.

/// Why a text has no tree.
#[derive(Clone, Copy, Debug, PartialEq, Eq)]
pub enum ParseFault {
    /// The tokens spell no tree that is low enough. The place is an offset in the text.
    Syntax { at: u32 },
    /// The tree would be too high. It is not answered yet.
    Depth { at: u32 },
    /// Memory was wanting. It may come in place of any other answer.
    NoMemory,
}
