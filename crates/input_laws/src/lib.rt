//! What the texts of inputs keep: a law.
#![tactic(auto)]

mod law;

pub use law::input_texts_are_of_one_line;
