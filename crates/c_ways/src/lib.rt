//! What the steps of a run stand on: a store that is changed in place, the slots of a call, the loops and the ways of
//! statements, and the costs and counts of blocks.
#![tactic(auto)]

mod arrays;
mod blocks;
mod counts;
mod loops;
mod memory;
mod slots;
mod ways;

pub use arrays::padded;
pub use blocks::{with_block, with_run};
pub use counts::{held_blocks, list_blocks, plus, stmt_blocks};
pub use loops::{DoLoop, Loop, do_loop, for_loop, while_loop};
pub use memory::{Memory, slot_ty};
pub use slots::{entry_slots, unset_target};
pub use ways::{goes_on, past, returned};
