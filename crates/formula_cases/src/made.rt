//! Formulas and logs that are made from lists.

use crate::numbers::{hints, literals};
use crate::wrong::Wrong;
use cnf_form::{Clause, Cnf, Log, LogLine};
use std::alloc::Global;

/// The formula of these clauses, with `;` between them.
pub(crate) fn formula(alloc: Global, variables: u32, text: &str) -> Result<Option<Cnf>, Wrong> {
    let mut clauses = Vec::new(alloc);
    for part in text.split(';') {
        clauses.push(clause(alloc, part)?)?;
    }
    Ok(Cnf::new(variables, clauses))
}

/// The log of these lines, with `;` between them.
pub(crate) fn log(alloc: Global, text: &str) -> Result<Option<Log>, Wrong> {
    let mut lines = Vec::new(alloc);
    for part in text.split(';') {
        lines.push(line(alloc, part)?)?;
    }
    Ok(Log::new(lines))
}

// The line of a clause and its hints, with `by` between them.
fn line(alloc: Global, text: &str) -> Result<LogLine, Wrong> {
    let (literals, numbers) = text.split_once("by").ok_or(Wrong::NoCase)?;
    Ok(LogLine::new(clause(alloc, literals)?, hints(alloc, numbers)?))
}

fn clause(alloc: Global, text: &str) -> Result<Clause, Wrong> {
    let literals = literals(alloc, text)?;
    Clause::new(alloc, literals.as_slice())?.ok_or(Wrong::NoCase)
}
