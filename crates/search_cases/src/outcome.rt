//! What a search comes to, checked.

ghost use Rattle.std.specs.Prelude.{◌<◌};
ghost use Rattle.cnf_form.specs.Literals.{most};

use crate::wrong::Wrong;
use cnf_form::{Assignment, Cnf, Log};
use rup_check::accepts;
use sat_search::{Verdict, solve};
use std::alloc::{AllocError, Global};

/// What a search came to, where its evidence was checked.
#[derive(Clone, Copy, Debug)]
pub(crate) enum Outcome {
    /// The assignment has a value for each variable and satisfies the formula.
    Satisfied,
    /// The log is accepted.
    Refuted,
    /// The log has as many lines as the limit says, and each of them follows.
    GaveUp,
    /// The evidence is not what it should be.
    Unfit,
}

impl Outcome {
    /// The answer that says so.
    pub(crate) fn told(self, alloc: Global) -> Result<String, AllocError> {
        match self {
            Outcome::Satisfied => format!(in alloc; "satisfied"),
            Outcome::Refuted => format!(in alloc; "refuted"),
            Outcome::GaveUp => format!(in alloc; "gave up"),
            Outcome::Unfit => format!(in alloc; "unfit"),
        }
    }

    /// The same, in a letter.
    pub(crate) fn letter(self) -> char {
        match self {
            Outcome::Satisfied => 's',
            Outcome::Refuted => 'r',
            Outcome::GaveUp => 'g',
            Outcome::Unfit => '?',
        }
    }
}

/// What the search for the formula comes to.
pub(crate) fn search_outcome(alloc: Global, cnf: &Cnf, limit: u32) -> Result<Outcome, Wrong> {
    match verdict(alloc, cnf, limit)? {
        Verdict::Sat(assignment) => Ok(of_assignment(cnf, &assignment)),
        Verdict::Unsat(log) => of_refutation(alloc, cnf, &log),
        Verdict::GaveUp(log) => of_lines(alloc, cnf, &log, limit),
    }
}

/// The values that the search found.
pub(crate) fn values(alloc: Global, cnf: &Cnf, limit: u32) -> Result<String, Wrong> {
    match verdict(alloc, cnf, limit)? {
        Verdict::Sat(assignment) => {
            let values = assignment.values();
            Ok(format!(in alloc; "{values:?}")?)
        }
        _ => Err(Wrong::NoCase),
    }
}

fn verdict(alloc: Global, cnf: &Cnf, limit: u32) -> Result<Verdict, Wrong> {
    if limit == 0 || limit >= 2_147_483_647 {
        return Err(Wrong::NoCase);
    }
    Ok(solve(alloc, cnf, limit)?)
}

fn of_assignment(cnf: &Cnf, assignment: &Assignment) -> Outcome {
    let values = assignment.values();
    if values.len() == cnf.variables as usize && satisfies(cnf, values) {
        Outcome::Satisfied
    } else {
        Outcome::Unfit
    }
}

fn satisfies(cnf: &Cnf, values: &[bool]) -> bool {
    cnf.clauses()
        .iter()
        .all(|clause| is_true(clause.literals(), values))
}

fn is_true(literals: &[i32], values: &[bool]) -> bool {
    literals.iter().any(|literal| value(values, literal.unsigned_abs()) == Some(*literal > 0))
}

// The value of a variable, the first of which is 1.
fn value(values: &[bool], variable: u32) -> Option<bool> {
    values.get((variable as usize).checked_sub(1)?).copied()
}

fn of_refutation(alloc: Global, cnf: &Cnf, log: &Log) -> Result<Outcome, Wrong> {
    match accepts(alloc, cnf, log)? {
        None => Ok(Outcome::Refuted),
        Some(_) => Ok(Outcome::Unfit),
    }
}

// All lines follow, and the last one is not empty: so the checker answers their number.
fn of_lines(alloc: Global, cnf: &Cnf, log: &Log, limit: u32) -> Result<Outcome, Wrong> {
    if log.lines().len() == limit as usize && accepts(alloc, cnf, log)? == Some(limit) {
        Ok(Outcome::GaveUp)
    } else {
        Ok(Outcome::Unfit)
    }
}
