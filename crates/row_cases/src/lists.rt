//! Objectives and multipliers.

use crate::numbers::{counts, integer, integers};
use crate::wrong::Wrong;
use lin_rows::{Multipliers, Objective};
use std::alloc::{AllocError, Global};

/// The objective with these costs.
pub(crate) fn objective(alloc: Global, costs: &str) -> Result<Objective, Wrong> {
    Ok(Objective::new(counts(alloc, costs)?))
}

/// The multipliers with this divisor.
pub(crate) fn multipliers(alloc: Global, d: &str, y: &str) -> Result<Multipliers, Wrong> {
    Ok(Multipliers::new(integer(d)?, integers(alloc, y)?))
}

/// The costs of an objective.
pub(crate) fn objective_again(alloc: Global, costs: &str) -> Result<String, Wrong> {
    let objective = objective(alloc, costs)?;
    Ok(costs_told(alloc, &objective)?)
}

fn costs_told(alloc: Global, objective: &Objective) -> Result<String, AllocError> {
    let costs = objective.costs();
    format!(in alloc; "{costs:?}")
}

/// The numbers of multipliers, and their divisor.
pub(crate) fn multipliers_again(alloc: Global, d: &str, y: &str) -> Result<String, Wrong> {
    let by = multipliers(alloc, d, y)?;
    Ok(multipliers_told(alloc, &by)?)
}

fn multipliers_told(alloc: Global, by: &Multipliers) -> Result<String, AllocError> {
    let d = by.d;
    let y = by.y();
    format!(in alloc; "{y:?} over {d}")
}
