//! Terms in the lines of cases that test programs read: operators by their names, stores of terms, and why a case has
//! no answer.
#![tactic(auto)]

mod op;
mod store;
mod words;
mod wrong;

pub use op::op_of;
pub use store::{declared, over_words, put_each, put_named, words_without_inputs};
pub use words::numbers;
pub use wrong::Wrong;
