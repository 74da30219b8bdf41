//! The tables of a search for an assignment: the literals that it made true, the literals that clauses watch, the
//! variables that a conflict rests on, and the order in which variables are decided.
#![tactic(auto)]

mod clauses;
mod entries;
mod marks;
mod order;
mod restarts;
mod trail;
mod watches;

pub use clauses::Clauses;
pub use entries::Entries;
pub use marks::Marks;
pub use order::Order;
pub use restarts::Restarts;
pub use trail::{Trail, negated};
pub use watches::{Pair, Watches};
