//! Multipliers of rows.

ghost use Rattle.std.specs.Prelude.{◌≡◌};

use sqlite_items::Items;

/// A multiplier `y` for each row, over the common divisor `d`.
#[derive(Debug, Drop)]
pub struct Multipliers {
    pub d: i128,
    pub y: Items<i128>,
}

impl Multipliers {
    /// The multipliers `y`, one a row, over `d`.
    pub fn new(d: i128, y: Vec<i128>) -> Multipliers
        ensures d { result.d ≡ d }
        ensures y { result.y ≡ y.items }
    {
        Multipliers {
            d,
            y: Items::from_vec(y),
        }
    }

    /// The multipliers, in the order of the rows.
    pub fn y(&self) -> &[i128]
        ensures { result.now ≡ self.now.y }
    {
        self.y.as_slice()
    }
}
