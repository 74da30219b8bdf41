//! Whether counts meet rows.

ghost use Rattle.std.specs.Prelude.{◌≡◌, ◌<◌, ◌↔◌, length, IsTrue, IsSome, IsNone, IfSome, All};
ghost use Rattle.std.specs.Option.{SomeIff};
ghost use Rattle.lin_rows.specs.Steps.{StaysInI128, LeavesI128};
ghost use Rattle.lin_rows.specs.Names.{NamesBelow};
ghost use Rattle.lin_rows.specs.Meeting.{left_side, left_side_steps, Compares, Meets, meeting_steps};

use crate::row::{RowKind, Rows};
use crate::steps::add_product;

/// Whether the counts meet every row. The left side of every row is summed, row by row and term by term from 0, also
/// after a row that fails; the answer is `None` exactly where a product or a sum on the way leaves `i128`.
///
/// It takes no memory, and one step a term.
pub fn meets(rows: &Rows, counts: &[u64]) -> Option<bool>
    requires { length counts.now ≡ rows.now.edges }
    ensures none { IsNone result ↔ LeavesI128 (meeting_steps rows.now counts.now) }
    ensures some { IsSome result ↔ StaysInI128 (meeting_steps rows.now counts.now) }
    ensures value { IfSome result (λ met. IsTrue met ↔ Meets rows.now counts.now) }
{
    let mut met = true;
    for row in rows.rows() {
        let left = left_side(row.terms(), counts)?;
        let holds = compares(row.kind, left, row.right);
        met = met && holds;
    }
    Some(met)
}

// The sum of factor times count over the terms, where no step leaves `i128`.
fn left_side(terms: &[(u16, i128)], counts: &[u64]) -> Option<i128>
    requires { NamesBelow (length counts.now) terms.now }
    ensures { SomeIff result (StaysInI128 (left_side_steps terms.now counts.now)) (left_side terms.now counts.now) }
{
    let mut sum: i128 = 0;
    for (edge, factor) in terms {
        let count = i128::from(counts[usize::from(*edge)]);
        sum = add_product(sum, *factor, count)?;
    }
    Some(sum)
}

// Whether the two sides compare as the kind says.
fn compares(kind: RowKind, left: i128, right: i128) -> bool
    ensures { IsTrue result ↔ Compares kind left right }
{
    match kind {
        RowKind::AtMost => left <= right,
        RowKind::Equal => left == right,
    }
}
