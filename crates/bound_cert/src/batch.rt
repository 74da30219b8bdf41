//! A batch of edges, whose reduced costs are computed side by side in one pass over the rows.

ghost use Rattle.std.specs.Prelude.{◌≡◌, ◌≤◌, ◌↔◌, ℤ, ◌+ℤ◌, length, IsSome, OnSome};
ghost use Rattle.std.specs.Option.{SomeIff};
ghost use Rattle.lin_rows.specs.Steps.{total, addition_steps, StaysInI128};
ghost use Rattle.bound_cert.specs.Batches.{starts, lefts, batch_steps, best_products};
ghost use Rattle.bound_cert.specs.Dual.{weighted_terms, weighted_factors, edge_bounds, best_limit};
ghost use Rattle.bound_cert.specs.DualSteps.{edges_steps};

use lin_rows::{Multipliers, Row, Rows, add_product, subtract_product};

/// How many edges a batch has at most.
pub(crate) const BATCH: usize = 64;

/// `sum` and the most that the reduced cost of each edge from `first` on comes to within its limits.
pub(crate) fn add_batch(
    sum: i128,
    rows: &Rows,
    by: &Multipliers,
    first: usize,
    costs: &[u64],
    limits: &[(u64, u64)],
) -> Option<i128>
    requires rows { length rows.now.rows ≡ length by.now.y }
    requires limits { length costs.now ≡ length limits.now }
    requires room { length costs.now ≤ BATCH }
    ensures { SomeIff result (StaysInI128 (edges_steps rows.now by.now first sum costs.now limits.now))
        (sum +ℤ total (edge_bounds rows.now by.now first costs.now limits.now)) }
{
    let mut room = [0; BATCH];
    let reduced = &mut room[..costs.len()];
    scale(by.d, costs, reduced)?;
    less_rows(rows.rows(), by.y(), first, reduced)?;
    add_best(sum, reduced, limits)
}

// Puts d times each cost into `reduced`.
fn scale(d: i128, costs: &[u64], reduced: &mut [i128]) -> Option<()>
    requires { length costs.now ≡ length reduced.old }
    ensures made { IsSome result ↔ StaysInI128 (starts d costs.now) }
    ensures starts { OnSome result (reduced.new ≡ starts d costs.now) }
{
    for (i, cost) in costs.iter().enumerate() {
        reduced[i] = d.checked_mul(i128::from(*cost))?;
    }
    Some(())
}

// Takes from each edge of the batch multiplier times factor, for each row that names it.
fn less_rows(rows: &[Row], y: &[i128], first: usize, reduced: &mut [i128]) -> Option<()>
    requires { length rows.now ≡ length y.now }
    ensures made { IsSome result ↔ StaysInI128 (batch_steps (weighted_factors rows.now y.now) first reduced.old) }
    ensures left { OnSome result (reduced.new ≡ lefts (weighted_factors rows.now y.now) first reduced.old) }
{
    for (i, row) in rows.iter().enumerate() {
        less_terms(row.terms(), y[i], first, reduced)?;
    }
    Some(())
}

// Takes `y` times factor from each edge of the batch that a term names.
fn less_terms(terms: &[(u16, i128)], y: i128, first: usize, reduced: &mut [i128]) -> Option<()>
    ensures made { IsSome result ↔ StaysInI128 (batch_steps (weighted_terms y terms.now) first reduced.old) }
    ensures left { OnSome result (reduced.new ≡ lefts (weighted_terms y terms.now) first reduced.old) }
{
    for (named, factor) in terms {
        let edge = usize::from(*named);
        if edge < first || edge - first >= reduced.len() {
            continue;
        }
        let at = edge - first;
        reduced[at] = subtract_product(reduced[at], y, *factor)?;
    }
    Some(())
}

// `sum` and each reduced cost times the count at which it comes to most.
fn add_best(sum: i128, reduced: &[i128], limits: &[(u64, u64)]) -> Option<i128>
    requires { length reduced.now ≡ length limits.now }
    ensures { SomeIff result (StaysInI128 (addition_steps sum (best_products reduced.now limits.now)))
        (sum +ℤ total (best_products reduced.now limits.now)) }
{
    let mut sum = sum;
    for (i, left) in reduced.iter().enumerate() {
        let count = i128::from(best_limit(*left, limits[i]));
        sum = add_product(sum, *left, count)?;
    }
    Some(sum)
}

// The limit at which `reduced` times the count comes to most.
fn best_limit(reduced: i128, limit: (u64, u64)) -> u64
    ensures { result ≡ best_limit reduced limit }
{
    if reduced >= 0 { limit.1 } else { limit.0 }
}
