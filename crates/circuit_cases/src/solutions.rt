//! Inputs at which conditions are nonzero, by a search for an assignment of their formula.

ghost use Rattle.std.specs.Prelude.{◌≡◌, ◌<◌, true, All, IfOk, length};
ghost use Rattle.cnf_form.specs.Literals.{most};
ghost use Rattle.cnf_form.specs.Truth.{Satisfies};
ghost use Rattle.bv_term.specs.Stores.{fits_store};
ghost use Rattle.bit_circuits.specs.Formula.{ClausesOf};

use crate::formula::{are_terms, terms_of, zeros};
use bit_blast::{Blasted, blast, decode};
use bit_circuits::law::clauses_say_conditions;
use bv_term::Terms;
use c_tree::Input;
use cnf_form::Assignment;
use sat_search::{Verdict, solve};
use std::alloc::Global;
use term_lines::{Wrong, numbers};

/// What the search for an input comes to.
#[derive(Drop)]
pub(crate) enum Found {
    /// The numbers of an input at which each condition is nonzero.
    Solution(Vec<i64>),
    /// An input at which some condition is 0.
    Unfit,
    /// There is no such input.
    NoSolution,
    /// So many clauses were learned as the limit says.
    GaveUp,
}

const MOST_LINES: u32 = 2_147_483_647;

/// Searches for an input at which each of the conditions is nonzero, and learns at most `limit` clauses.
pub(crate) fn searched_for(
    alloc: Global,
    inputs: &str,
    text: &str,
    conditions: &str,
    limit: &str,
) -> Result<Found, Wrong> {
    let terms = terms_of(alloc, inputs, text)?;
    let conditions = numbers(alloc, conditions)?;
    let limit = limit.parse::<u32>().ok().ok_or(Wrong::NoCase)?;
    if limit == 0 || limit >= MOST_LINES || !are_terms(&terms, conditions.as_slice()) {
        return Err(Wrong::NoCase);
    }
    searched_terms(alloc, &terms, conditions.as_slice(), limit)
}

fn searched_terms(
    alloc: Global,
    terms: &Terms,
    conditions: &[u32],
    limit: u32,
) -> Result<Found, Wrong>
    requires terms { All (λ t. t < length terms.now.ops) conditions.now }
    requires some { 0 < limit }
    requires few { limit < most }
{
    let blasted = blast(alloc, terms, conditions)?;
    match solve(alloc, blasted.cnf(), limit)
        .ok()
        .ok_or(Wrong::NoMemory)?
    {
        Verdict::Sat(assignment) => {
            let input = input_of(alloc, terms, conditions, &blasted, &assignment)?;
            judged(alloc, terms, conditions, &input)
        }
        Verdict::Unsat(_) => Ok(Found::NoSolution),
        Verdict::GaveUp(_) => Ok(Found::GaveUp),
    }
}

// The input that a satisfying assignment says.
fn input_of(
    alloc: Global,
    terms: &Terms,
    conditions: &[u32],
    blasted: &Blasted,
    assignment: &Assignment,
) -> Result<Input, Wrong>
    requires inputs { blasted.now.inputs ≡ terms.now.inputs }
    requires variables { length assignment.now.values ≡ blasted.now.cnf.variables }
    requires satisfies { Satisfies assignment.now.values (ClausesOf terms.now conditions.now) }
    ensures { IfOk result (λ input. fits_store terms.now input ≡ true) }
{
    // Operators of a store name terms before them.
    terms.len();
    clauses_say_conditions();
    let mut input = zeros(alloc, terms.inputs().len())?;
    decode(blasted, assignment, &mut input);
    Ok(input)
}

// Whether each condition is nonzero at an input, by the words of the terms.
fn judged(alloc: Global, terms: &Terms, conditions: &[u32], input: &Input) -> Result<Found, Wrong>
    requires { fits_store terms.now input.now ≡ true }
{
    let words = terms.values(input)?;
    if conditions.iter().all(|t| is_nonzero(words.as_slice(), *t)) {
        Ok(Found::Solution(Vec::from_slice(alloc, input.values.as_slice())?))
    } else {
        Ok(Found::Unfit)
    }
}

fn is_nonzero(words: &[u32], term: u32) -> bool {
    match words.get(term as usize) {
        Some(word) => *word != 0,
        None => false,
    }
}
