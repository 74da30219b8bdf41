//! The answers to the cases.

use crate::made;
use crate::numbers::{literals, number, values};
use crate::wrong::Wrong;
use case_lines::{is_heading, on_one_line, parts, with_lines};
use cnf_form::{Assignment, Clause, Cnf, Log, read_cnf, read_log, write_cnf, write_log};
use rup_check::accepts;
use std::alloc::{AllocError, Global};

/// What is written for a line: a heading as it is, and for a case its answer.
pub(crate) fn told(alloc: Global, line: &str) -> Result<String, AllocError> {
    if is_heading(line) {
        return line.to_string(alloc);
    }
    match answer(alloc, line) {
        Ok(text) => Ok(text),
        Err(wrong) => wrong.told(alloc),
    }
}

fn answer(alloc: Global, line: &str) -> Result<String, Wrong> {
    let parts = parts(alloc, line)?;
    match parts.as_slice() {
        [kind, text] => answer_of_one(alloc, kind, text),
        [kind, first, second] => answer_of_two(alloc, kind, first, second),
        _ => Err(Wrong::NoCase),
    }
}

fn answer_of_one(alloc: Global, kind: &str, text: &str) -> Result<String, Wrong> {
    match kind {
        "formula" => formula_again(alloc, &formula_of(alloc, text)?),
        "log" => log_again(alloc, &log_of(alloc, text)?),
        "lines" => lines(alloc, &log_of(alloc, text)?),
        "clause" => clause(alloc, text),
        "new log" => new_log(alloc, text),
        "assignment" => assignment(alloc, text),
        _ => Err(Wrong::NoCase),
    }
}

fn answer_of_two(alloc: Global, kind: &str, first: &str, second: &str) -> Result<String, Wrong> {
    match kind {
        "new formula" => new_formula(alloc, first, second),
        "accepts" => acceptance(alloc, &formula_of(alloc, first)?, &log_of(alloc, second)?),
        _ => Err(Wrong::NoCase),
    }
}

// The formula that the text of a part says.
fn formula_of(alloc: Global, part: &str) -> Result<Cnf, Wrong> {
    let text = with_lines(alloc, part)?;
    if text.len() > MOST_BYTES {
        return Err(Wrong::NoCase);
    }
    Ok(read_cnf(alloc, text.as_bytes())?)
}

// The log that the text of a part says.
fn log_of(alloc: Global, part: &str) -> Result<Log, Wrong> {
    let text = with_lines(alloc, part)?;
    if text.len() > MOST_BYTES {
        return Err(Wrong::NoCase);
    }
    Ok(read_log(alloc, text.as_bytes())?)
}

// No text of a case is longer.
const MOST_BYTES: usize = 1000;

fn formula_again(alloc: Global, formula: &Cnf) -> Result<String, Wrong> {
    written(alloc, write_cnf(alloc, formula)?)
}

fn log_again(alloc: Global, log: &Log) -> Result<String, Wrong> {
    written(alloc, write_log(alloc, log)?)
}

// The bytes of a text, on one line after `ok`.
fn written(alloc: Global, bytes: Vec<u8>) -> Result<String, Wrong> {
    let text = str::from_utf8(bytes.as_slice()).ok().ok_or(Wrong::NoCase)?;
    let line = on_one_line(alloc, text)?;
    Ok(format!(in alloc; "ok {line}")?)
}

// Each line's clause and hints.
fn lines(alloc: Global, log: &Log) -> Result<String, Wrong> {
    let mut text = String::new(alloc);
    for line in log.lines() {
        let literals = line.clause.literals();
        let hints = line.hints();
        let told = format!(in alloc; "{literals:?} by {hints:?};")?;
        text.push_str(told.as_str())?;
    }
    Ok(text)
}

fn clause(alloc: Global, text: &str) -> Result<String, Wrong> {
    let literals = literals(alloc, text)?;
    match Clause::new(alloc, literals.as_slice())? {
        Some(clause) => {
            let again = Clause::of_clause(alloc, clause.literals())?;
            let literals = again.literals();
            Ok(format!(in alloc; "{literals:?}")?)
        }
        None => none(alloc),
    }
}

fn new_formula(alloc: Global, variables: &str, clauses: &str) -> Result<String, Wrong> {
    match made::formula(alloc, number(variables)?, clauses)? {
        Some(formula) => formula_again(alloc, &formula),
        None => none(alloc),
    }
}

fn new_log(alloc: Global, lines: &str) -> Result<String, Wrong> {
    match made::log(alloc, lines)? {
        Some(log) => log_again(alloc, &log),
        None => none(alloc),
    }
}

fn none(alloc: Global) -> Result<String, Wrong> {
    Ok("none".to_string(alloc)?)
}

fn assignment(alloc: Global, text: &str) -> Result<String, Wrong> {
    let assignment = Assignment::new(values(alloc, text)?);
    let values = assignment.values();
    Ok(format!(in alloc; "{values:?}")?)
}

fn acceptance(alloc: Global, formula: &Cnf, log: &Log) -> Result<String, Wrong> {
    match accepts(alloc, formula, log)? {
        Some(line) => Ok(format!(in alloc; "fails at line {line}")?),
        None => Ok("accepted".to_string(alloc)?),
    }
}
