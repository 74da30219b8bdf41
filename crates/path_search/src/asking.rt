//! A search on a formula.

ghost use Rattle.std.specs.Prelude.{◌<◌, IfOk};
ghost use Rattle.cnf_form.specs.Literals.{most};
ghost use Rattle.path_search.specs.Findings.{IsAnswer};

use crate::found::Found;
use crate::reading::input_said;
use bit_blast::Blasted;
use c_tree::NoMemory;
use sat_search::{Verdict, solve};
use std::alloc::Global;

/// Searches the formula, and learns at most `limit` clauses. The answer is an input that a satisfying assignment says,
/// or that an accepted log refutes the formula, or that it gave up with a log that is worked at the limit.
pub(crate) fn ask(alloc: Global, blasted: &Blasted, limit: u32) -> Result<Found, NoMemory>
    requires some { 0 < limit }
    requires few { limit < most }
    ensures { IfOk result (λ found. IsAnswer blasted.now limit found) }
{
    match solve(alloc, blasted.cnf(), limit) {
        Ok(Verdict::Sat(assignment)) => {
            let input = input_said(alloc, blasted, &assignment)?;
            Ok(Found::Driven(input))
        }
        Ok(Verdict::Unsat(_)) => Ok(Found::Refuted),
        Ok(Verdict::GaveUp(_)) => Ok(Found::GaveUp),
        Err(_) => Err(NoMemory),
    }
}
