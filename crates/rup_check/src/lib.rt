//! The checker of refutation logs. It has no search: each line of a log brings its own unit propagation, as hints, and
//! the checker goes along it. Whoever made the log is not trusted.
#![tactic(auto)]

mod check;
mod law;
mod made;
mod standing;

pub use check::accepts;
pub use law::{accepted_has_no_solution, teaching_is_new, worked_is_short, worked_needs_closed};
