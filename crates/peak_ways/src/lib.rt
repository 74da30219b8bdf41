//! The dearest ways through a part of a flat graph, from those of the parts in it.
#![tactic(auto)]

mod ways;

pub use ways::{
    back, block_ways, body_ways, both, choice_ways, do_ways, greater, more, only_next, then_ways,
    turn_cost, turn_multiplier, while_ways,
};
