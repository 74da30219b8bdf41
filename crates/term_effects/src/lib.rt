//! The effect of simple statements on a store of terms, as code (C11 6.2.4, 6.5.16, 6.7.9).
#![tactic(auto)]

mod arrays;
mod assignments;
mod slots;
mod statements;

pub use arrays::zeros;
pub use slots::{nowhere, put_term, unset_local};
pub use statements::all_simple;
