//! Laws of lists, numbers and choices that several crates cite; there is no code.
#![tactic(auto)]
