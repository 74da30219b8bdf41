//! The answers to the cases.

use crate::formulas;
use crate::outcome::{search_outcome, values};
use crate::wrong::Wrong;
use case_lines::{is_heading, parts, with_lines};
use cnf_form::{Cnf, read_cnf};
use std::alloc::{AllocError, Global};

/// What is written for a line: a heading as it is, and for a case its answer.
pub(crate) fn told(alloc: Global, line: &str) -> Result<String, AllocError> {
    if is_heading(line) {
        return line.to_string(alloc);
    }
    match answer(alloc, line) {
        Ok(text) => Ok(text),
        Err(wrong) => wrong.told(alloc),
    }
}

fn answer(alloc: Global, line: &str) -> Result<String, Wrong> {
    let parts = parts(alloc, line)?;
    match parts.as_slice() {
        [kind, formula, limit] => one(alloc, kind, formula, number(limit)?),
        [_random, variables, clauses, seed, count] => many(
            alloc,
            number(variables)?,
            number(clauses)?,
            number(seed)?,
            number(count)?,
        ),
        _ => Err(Wrong::NoCase),
    }
}

fn number(word: &str) -> Result<u32, Wrong> {
    word.parse::<u32>().ok().ok_or(Wrong::NoCase)
}

fn one(alloc: Global, kind: &str, formula: &str, limit: u32) -> Result<String, Wrong> {
    match kind {
        "solve" => outcome_of(alloc, &formula_of(alloc, formula)?, limit),
        "values" => values(alloc, &formula_of(alloc, formula)?, limit),
        "chain" => outcome_of(alloc, &formulas::chain(alloc, number(formula)?)?, limit),
        "pigeons" => outcome_of(alloc, &formulas::pigeons(alloc, number(formula)?)?, limit),
        "parity" => outcome_of(alloc, &formulas::parity(alloc, number(formula)?)?, limit),
        _ => Err(Wrong::NoCase),
    }
}

// No text of a case is longer.
const MOST_BYTES: usize = 1000;

// The formula that the text of a part says.
fn formula_of(alloc: Global, part: &str) -> Result<Cnf, Wrong> {
    let text = with_lines(alloc, part)?;
    if text.len() > MOST_BYTES {
        return Err(Wrong::NoCase);
    }
    Ok(read_cnf(alloc, text.as_bytes())?)
}

fn outcome_of(alloc: Global, cnf: &Cnf, limit: u32) -> Result<String, Wrong> {
    Ok(search_outcome(alloc, cnf, limit)?.told(alloc)?)
}

// No random formula needs more lines.
const MANY_LINES: u32 = 1_000_000;

// A letter for each of so many random formulas.
fn many(
    alloc: Global,
    variables: u32,
    clauses: u32,
    seed: u32,
    count: u32,
) -> Result<String, Wrong> {
    let mut letters = String::new(alloc);
    for turn in 0..count {
        let cnf = formulas::random(alloc, variables, clauses, seed.saturating_add(turn))?;
        letters.push(search_outcome(alloc, &cnf, MANY_LINES)?.letter())?;
    }
    Ok(letters)
}
