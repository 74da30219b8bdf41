//! Formulas.

ghost use Rattle.std.specs.Prelude.{◌≡◌, ◌≤◌, ◌↔◌, IsTrue, IsSome, IfSome, length, All};
ghost use Rattle.cnf_form.specs.Literals.{most, AreClauses, NamesUpTo};

use crate::clause::{Clause, names_up_to};
use sqlite_items::Items;

/// The greatest number of variables, of clauses and of lines.
pub(crate) const MOST: u32 = 2_147_483_647;

/// A formula: a conjunction of clauses over the variables from 1 to `variables`. There are at most 2,147,483,647
/// variables and as many clauses.
#[derive(Debug, Drop)]
pub struct Cnf {
    pub variables: u32,
    pub clauses: Items<Clause>,
    ghost few_variables: { variables ≤ most },
    ghost few_clauses: { length clauses ≤ most },
    ghost each: { AreClauses clauses },
    ghost named: { All (NamesUpTo variables) clauses },
}

impl Cnf {
    /// The formula of these clauses over so many variables; `None` exactly where there are too many variables or
    /// clauses, or a clause names a variable above `variables`. It takes no memory.
    pub fn new(variables: u32, clauses: Vec<Clause>) -> Option<Cnf>
        ensures made { IsSome result ↔ ((variables ≤ most) × (length clauses.items ≤ most) × All (NamesUpTo variables)
            clauses.items) }
        ensures variables { IfSome result (λ cnf. cnf.variables ≡ variables) }
        ensures clauses { IfSome result (λ cnf. cnf.clauses ≡ clauses.items) }
    {
        let clauses = Items::from_vec(clauses);
        if variables <= MOST
            && clauses.len() <= MOST as usize
            && all_name_up_to(clauses.as_slice(), variables)
        {
            Some(Cnf { variables, clauses })
        } else {
            None
        }
    }

    /// The clauses, in order: clause number 0 first.
    pub fn clauses(&self) -> &[Clause]
        ensures value { result.now ≡ self.now.clauses }
        ensures few { length result.now ≤ most }
        ensures each { AreClauses result.now }
        ensures named { All (NamesUpTo self.now.variables) result.now }
    {
        self.clauses.as_slice()
    }
}

// Whether each clause names variables from 1 to `variables` alone. Each is looked at, so that all are known to be
// clauses.
fn all_name_up_to(clauses: &[Clause], variables: u32) -> bool
    ensures named { IsTrue result ↔ All (NamesUpTo variables) clauses.now }
    ensures each { IsTrue result → AreClauses clauses.now }
{
    for clause in clauses {
        if !names_up_to(clause.literals(), variables) {
            return false;
        }
    }
    true
}
