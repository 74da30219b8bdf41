//! Formulas of conditions over terms.

ghost use Rattle.std.specs.Prelude.{◌≡◌, ◌≤◌, length};

use cnf_form::Cnf;
use sqlite_items::Items;

/// A formula of conditions over terms, and the inputs of the terms: each true where it is signed. Variable 1 is true,
/// and input number n has the 32 variables from 2 + 32 n on, lowest bit first. There are at most 64 inputs.
#[derive(Debug, Drop)]
pub struct Blasted {
    pub cnf: Cnf,
    pub inputs: Items<bool>,
    ghost few: { length inputs ≤ 64 },
}

impl Blasted {
    /// The formula.
    pub fn cnf(&self) -> &Cnf
        ensures { result.now ≡ self.now.cnf }
    {
        &self.cnf
    }
}
