//! The bound that multipliers of rows give: the value of the dual of a linear program over a box, and that no vector of
//! counts in the box that meets the rows costs more (weak duality).
#![tactic(auto)]

mod batch;
mod dual;
mod fitting;
mod law;

pub use dual::dual_bound;
pub use fitting::by_fits;
pub use law::{weak_duality, weak_duality_without_box};
