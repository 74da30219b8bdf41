//! Turns on items: what covers no driven path is refuted, what parts is split, what is found is answered.
#![tactic(auto)]

mod onward;
mod settling;
mod splitting;
mod step;
mod trial;
mod turner;

pub use turner::Turner;
