//! Formulas of lists of edges: definitions, and the laws that the formula of a list, and that of other terms which say
//! the same, say which inputs drive it.
#![tactic(auto)]

mod law;

pub use law::{formulas_of_other_terms_say_what_drives, formulas_say_what_drives};
