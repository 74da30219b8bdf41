//! Answers.

use sqlite_items::Items;

/// Where a list of edges stops going on.
#[derive(Drop)]
pub enum Next {
    /// The list has 16,385 edges or more.
    Long(Items<u16>),
    /// The list ends in Exit, so it is a path.
    Whole(Items<u16>),
    /// No edge may follow the list, which does not end in Exit.
    Dead(Items<u16>),
    /// Two edges may follow the list: it stands here with each, `True` first.
    Fork(Items<u16>, Items<u16>),
}
