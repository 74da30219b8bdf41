//! What an edge changes beside the terms.

use cond_laws::{Returned, TermSlot, TermStore};
use sqlite_items::Items;

/// The store of the function at work, the locals of its callers, innermost last, and the value that was returned.
#[derive(Drop)]
pub(crate) struct Memory {
    pub(crate) store: TermStore,
    pub(crate) frames: Items<Items<TermSlot>>,
    pub(crate) result: Option<Returned>,
}
