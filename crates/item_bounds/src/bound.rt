//! The bound of multipliers on what a box of counts costs.

ghost use Rattle.std.specs.Prelude.{◌≡◌, ◌≤◌, length, IfOk};
ghost use Rattle.flow_laws.specs.Graphs.{graph, edges};
ghost use Rattle.item_bounds.specs.Bounds.{BoundsDriven, BoundsVectors};

use crate::left::counts_left;
use bound_cert::{by_fits, dual_bound};
use c_tree::NoMemory;
use ipet_rows::SoundRows;
use lin_rows::{CountBox, Multipliers};
use race_item::Cut;
use std::alloc::Global;

/// The dual value of the multipliers over the box, at most `most`; 0 where it is negative, since then the box has no
/// vector that meets the rows; and `most` where the multipliers do not fit the rows or a step leaves `i128`. It takes
/// no memory.
pub fn bound_by(rows: &SoundRows, within: &CountBox, by: &Multipliers, most: u128) -> u128
    requires { length within.now.limits ≡ length (edges (graph rows.now.plan.program)) }
    ensures most { result ≤ most }
    ensures bounds { BoundsVectors rows.now within.now most result }
{
    if !by_fits(rows.rows(), by) {
        return most;
    }
    match dual_bound(rows.rows(), rows.objective(), within, by) {
        Some(value) if value < 0 => 0,
        Some(value) => most.min(value.unsigned_abs()),
        None => most,
    }
}

/// A bound on what the driven paths within the cuts that begin with the prefix cost, at most `most`: the least of the
/// dual values of these multipliers over the box that the item leaves, and 0 where it leaves none. `NoMemory` is want
/// of memory.
pub fn bound_left(
    alloc: Global,
    rows: &SoundRows,
    cuts: &[Cut],
    prefix: &[u16],
    by: &[Multipliers],
    most: u128,
) -> Result<u128, NoMemory>
    ensures most { IfOk result (λ bound. bound ≤ most) }
    ensures bounds { IfOk result (λ bound. BoundsDriven rows.now cuts.now prefix.now most bound) }
{
    // The counts of driven paths meet the rows, and the program is well-formed.
    rows.rows();
    rows.plan().program();
    match counts_left(alloc, rows, cuts, prefix)? {
        Some(within) => Ok(least_bound(rows, &within, by, most)),
        None => Ok(0),
    }
}

fn least_bound(rows: &SoundRows, within: &CountBox, by: &[Multipliers], most: u128) -> u128
    requires { length within.now.limits ≡ length (edges (graph rows.now.plan.program)) }
    ensures most { result ≤ most }
    ensures bounds { BoundsVectors rows.now within.now most result }
{
    let mut least = most;
    for by in by {
        least = bound_by(rows, within, by, least);
    }
    least
}
