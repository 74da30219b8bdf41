//! The clauses of conditions.

ghost use Rattle.std.specs.Prelude.{◌≡◌, ◌++◌, map, OnOk};
ghost use Rattle.bit_circuits.specs.Tidy.{tidy_clauses};
ghost use Rattle.bit_circuits.specs.Words.{falses as falses_of};
ghost use Rattle.bit_circuits.specs.Formula.{bits_at as bits_at_of};

use crate::tidy::push_tidied;
use bit_circuits::{Literal, bits_at};
use cnf_form::Clause;
use std::alloc::{AllocError, Global};

/// For each condition the clause that some bit of its word is true, behind other clauses; `words` has the bits of the
/// terms, and `none` is the word 0.
pub(crate) fn push_conditions(
    alloc: Global,
    clauses: &mut Vec<Clause>,
    words: &[Vec<Literal>],
    none: &[Literal],
    conditions: &[u32],
) -> Result<(), AllocError>
    requires { none.now ≡ falses_of 32 }
    ensures { OnOk result (clauses.new.items ≡ clauses.old.items
        ++ tidy_clauses (map (bits_at_of (map (λ w. w.items) words.now)) conditions.now)) }
{
    for term in conditions {
        push_tidied(alloc, clauses, bits_at(words, none, *term))?;
    }
    Ok(())
}
