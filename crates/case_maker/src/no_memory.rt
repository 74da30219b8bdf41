//! Want of memory.

/// A call wanted memory and got none.
#[derive(Clone, Copy, Debug, PartialEq, Eq)]
pub struct NoMemory;
