//! Which multipliers may be used with rows.

ghost use Rattle.std.specs.Prelude.{◌↔◌, IsTrue};
ghost use Rattle.std.specs.List.{AllZip};
ghost use Rattle.bound_cert.specs.Fitting.{FitsRows, Takes};

use lin_rows::{Multipliers, Row, RowKind, Rows};

/// Whether the multipliers may be used with the rows: `d` is at least 1, there is one multiplier a row, and those of
/// the `AtMost` rows are not negative. It takes no memory.
pub fn by_fits(rows: &Rows, by: &Multipliers) -> bool
    ensures { IsTrue result ↔ FitsRows rows.now by.now }
{
    by.d >= 1 && each_takes(rows.rows(), by.y())
}

// Whether there is one multiplier a row, each of which its row takes.
fn each_takes(rows: &[Row], y: &[i128]) -> bool
    ensures { IsTrue result ↔ AllZip (λ row y. Takes row.kind y) rows.now y.now }
{
    if rows.len() != y.len() {
        return false;
    }
    for (i, row) in rows.iter().enumerate() {
        if !takes(row.kind, y[i]) {
            return false;
        }
    }
    true
}

// Whether a row of the kind takes the multiplier.
fn takes(kind: RowKind, y: i128) -> bool
    ensures { IsTrue result ↔ Takes kind y }
{
    match kind {
        RowKind::AtMost => y >= 0,
        RowKind::Equal => true,
    }
}
