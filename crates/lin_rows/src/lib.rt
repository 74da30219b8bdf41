//! Rows of whole numbers over counts of edges: the rows themselves, an objective, a box of limits and multipliers, and
//! the test whether counts meet rows. Nothing here knows of C.
#![tactic(auto)]

mod count_box;
mod meeting;
mod multipliers;
mod objective;
mod row;
mod steps;

pub use count_box::CountBox;
pub use meeting::meets;
pub use multipliers::Multipliers;
pub use objective::Objective;
pub use row::{Row, RowKind, Rows};
pub use steps::{add_product, subtract_product};
