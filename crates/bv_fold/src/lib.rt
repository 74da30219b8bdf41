//! Folded terms: of the same value, and constants where no input stands below.
#![tactic(auto)]

mod apart;
mod bits;
mod choices;
mod comparisons;
mod folding;
mod folds;
mod gathering;
mod known;
mod marks;
mod operands;
mod products;
mod putting;
mod shifts;
mod simplify;
mod stand;
mod step;
mod sums;
mod zeros;

pub use apart::fold_apart;
pub use folding::fold;
pub use folds::Folds;
pub use gathering::Gathered;
