//! The dual value of multipliers over a box.

ghost use Rattle.std.specs.Prelude.{◌≡◌, ◌↔◌, ℕ, ℤ, pos, ◌+ℤ◌, ◌-ℤ◌, ◌*ℤ◌, length, IsSome, IsNone, IfSome};
ghost use Rattle.std.specs.Option.{SomeIff};
ghost use Rattle.lin_rows.specs.Steps.{total, addition_steps, StaysInI128, LeavesI128};
ghost use Rattle.bound_cert.specs.Dual.{dual, weighted_rights};
ghost use Rattle.bound_cert.specs.DualSteps.{dual_steps};
ghost use Rattle.bound_cert.specs.Fitting.{FitsRows};
ghost use Rattle.bound_cert.specs.Law.{IsBound};

use crate::batch::{BATCH, add_batch};
use lin_rows::{CountBox, Multipliers, Objective, Row, Rows, add_product};

/// The bound that multipliers give on the cost of every vector of counts in the box that meets the rows, or `None`
/// exactly where a step of its written order leaves `i128`. The order:
///
/// - s begins at 0, and for each row in order its multiplier times its right side is added to s;
/// - for each edge in order, r begins at `d` times its cost, and for each row in order that names the edge its
/// multiplier times its factor is taken from r; then r times the edge's greatest count is added to s where r is at
/// least 0, else r times its least count;
/// - the bound is s divided by `d`, rounded down.
///
/// It takes no memory. Its rows are passed over once for each 64 edges, so its time grows with the edges times the
/// terms of all rows, divided by 64: for 2,048 edges that two rows name each, some hundred thousand short steps.
pub fn dual_bound(
    rows: &Rows,
    objective: &Objective,
    within: &CountBox,
    by: &Multipliers,
) -> Option<i128>
    requires costs { length objective.now.costs ≡ rows.now.edges }
    requires limits { length within.now.limits ≡ rows.now.edges }
    requires fits { FitsRows rows.now by.now }
    ensures none { IsNone result ↔ LeavesI128 (dual_steps rows.now objective.now within.now by.now) }
    ensures some { IsSome result ↔ StaysInI128 (dual_steps rows.now objective.now within.now by.now) }
    ensures value { IfSome result (λ bound. bound ≡ dual rows.now objective.now within.now by.now) }
    ensures above { IfSome result (λ bound. IsBound rows.now objective.now within.now bound) }
{
    let mut sum = right_sides(rows.rows(), by.y())?;
    let mut costs = objective.costs();
    let mut limits = within.limits();
    let mut first = 0;
    while !costs.is_empty() {
        let count = costs.len().min(BATCH);
        let (batch, later) = costs.split_at(count);
        let (batch_limits, later_limits) = limits.split_at(count);
        sum = add_batch(sum, rows, by, first, batch, batch_limits)?;
        first += count;
        costs = later;
        limits = later_limits;
    }
    Some(sum.div_euclid(by.d))
}

// The sum of multiplier times right side over the rows.
fn right_sides(rows: &[Row], y: &[i128]) -> Option<i128>
    requires { length rows.now ≡ length y.now }
    ensures { SomeIff result (StaysInI128 (addition_steps (pos 0) (weighted_rights rows.now y.now)))
        (total (weighted_rights rows.now y.now)) }
{
    let mut sum: i128 = 0;
    for (i, row) in rows.iter().enumerate() {
        sum = add_product(sum, y[i], row.right)?;
    }
    Some(sum)
}
