//! Counts that meet rows, and what multipliers bound.

use crate::boxes::box_of;
use crate::lists::{multipliers, objective};
use crate::numbers::{counts, size};
use crate::rows::rows_over;
use crate::wrong::Wrong;
use bound_cert::{by_fits, dual_bound};
use lin_rows::{CountBox, Multipliers, Objective, Rows, meets};
use std::alloc::{AllocError, Global};

/// Whether counts meet rows.
pub(crate) fn meeting(alloc: Global, rows: &str, counts_text: &str) -> Result<String, Wrong> {
    let text = met(alloc, rows, counts_text)?;
    Ok(text.to_string(alloc)?)
}

fn met(alloc: Global, rows: &str, counts_text: &str) -> Result<&'static str, Wrong> {
    let counts = counts(alloc, counts_text)?;
    met_by(alloc, rows, counts.as_slice())
}

fn met_by(alloc: Global, rows: &str, counts: &[u64]) -> Result<&'static str, Wrong> {
    let rows = rows_over(alloc, counts.len(), rows)?;
    if counts.len() != rows.edges as usize {
        return Err(Wrong::Lengths);
    }
    Ok(match meets(&rows, counts) {
        Some(true) => "met",
        Some(false) => "not met",
        None => "leaves i128",
    })
}

/// Whether multipliers fit rows.
pub(crate) fn fits(
    alloc: Global,
    edges: &str,
    rows: &str,
    d: &str,
    y: &str,
) -> Result<String, Wrong> {
    let edges = size(edges)? as usize;
    let text = fitting(alloc, edges, rows, (d, y))?;
    Ok(text.to_string(alloc)?)
}

// The same as a word; the multipliers are their divisor and their numbers.
fn fitting(
    alloc: Global,
    edges: usize,
    rows: &str,
    by: (&str, &str),
) -> Result<&'static str, Wrong> {
    let by = multipliers(alloc, by.0, by.1)?;
    fitting_of(alloc, edges, rows, &by)
}

fn fitting_of(
    alloc: Global,
    edges: usize,
    rows: &str,
    by: &Multipliers,
) -> Result<&'static str, Wrong> {
    let rows = rows_over(alloc, edges, rows)?;
    Ok(if by_fits(&rows, by) {
        "fits"
    } else {
        "does not fit"
    })
}

/// The dual value.
pub(crate) fn bound(
    alloc: Global,
    rows: &str,
    costs: &str,
    limits: &str,
    d: &str,
    y: &str,
) -> Result<String, Wrong> {
    let by = multipliers(alloc, d, y)?;
    bound_by(alloc, rows, costs, limits, &by)
}

fn bound_by(
    alloc: Global,
    rows: &str,
    costs: &str,
    limits: &str,
    by: &Multipliers,
) -> Result<String, Wrong> {
    let objective = objective(alloc, costs)?;
    match bound_over(alloc, rows, &objective, limits, by) {
        Ok(bound) => Ok(bound_told(alloc, bound)?),
        Err(wrong) => Err(wrong),
    }
}

fn bound_told(alloc: Global, bound: Option<i128>) -> Result<String, AllocError> {
    match bound {
        Some(bound) => format!(in alloc; "{bound}"),
        None => "leaves i128".to_string(alloc),
    }
}

fn bound_over(
    alloc: Global,
    rows: &str,
    objective: &Objective,
    limits: &str,
    by: &Multipliers,
) -> Result<Option<i128>, Wrong> {
    let within = box_of(alloc, limits)?;
    bound_within(alloc, rows, objective, &within, by)
}

fn bound_within(
    alloc: Global,
    rows: &str,
    objective: &Objective,
    within: &CountBox,
    by: &Multipliers,
) -> Result<Option<i128>, Wrong> {
    let rows = rows_over(alloc, objective.costs().len(), rows)?;
    bound_of(&rows, objective, within, by)
}

// The dual value, where the lists have the lengths that it asks for and the multipliers fit.
fn bound_of(
    rows: &Rows,
    objective: &Objective,
    within: &CountBox,
    by: &Multipliers,
) -> Result<Option<i128>, Wrong> {
    let edges = rows.edges as usize;
    if objective.costs().len() != edges || within.limits().len() != edges {
        return Err(Wrong::Lengths);
    }
    if !by_fits(rows, by) {
        return Err(Wrong::Refused);
    }
    Ok(dual_bound(rows, objective, within, by))
}
