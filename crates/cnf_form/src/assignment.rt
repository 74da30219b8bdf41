//! Truth values of variables.

ghost use Rattle.std.specs.Prelude.{◌≡◌};

use sqlite_items::Items;

/// One truth value per variable; that of variable 1 stands first.
#[derive(Debug, Drop)]
pub struct Assignment {
    pub values: Items<bool>,
}

impl Assignment {
    /// The assignment of these values. It takes no memory.
    pub fn new(values: Vec<bool>) -> Assignment
        ensures { result.values ≡ values.items }
    {
        Assignment {
            values: Items::from_vec(values),
        }
    }

    /// The values, that of variable 1 first.
    pub fn values(&self) -> &[bool]
        ensures { result.now ≡ self.now.values }
    {
        self.values.as_slice()
    }
}
