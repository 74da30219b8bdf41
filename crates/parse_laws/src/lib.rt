//! Reading a text from the left, as a definition: what is read is what the tokens spell, and all of it.
#![tactic(auto)]

mod fault;
mod going;
mod head;
pub mod law;

pub use fault::ReadingFault;
pub use going::Next;
pub use head::ForHead;
