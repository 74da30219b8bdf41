//! The search.

ghost use Rattle.std.specs.Prelude.{◌≡◌, ◌<◌, ◌≤◌, ◌^◌, ℕ, ℤ, List, [], length, IfOk};
ghost use Rattle.cnf_form.specs.Literals.{most};
ghost use Rattle.rup_check.specs.Closed.{IsClosed};
ghost use Rattle.sat_search.specs.Working.{IsWorking};
ghost use Rattle.sat_search.specs.Loading.{IsRefuted};
ghost use Rattle.sat_search.specs.Totals.{IsTotal};
ghost use Rattle.sat_search.specs.Assigning.{Assigns};
ghost use Rattle.sat_search.specs.Verdicts.{IsVerdict, IfGaveUp};
ghost use Rattle.rup_check.specs.Accepted.{clauses_of, IsAccepted};

use crate::analysis::refute;
use crate::search::Search;
use crate::verdict::Verdict;
use cnf_form::{Assignment, Clause, Cnf, Log, LogLine};
use search_tables::{Clauses, Restarts, Trail};
use sqlite_items::Items;
use std::alloc::{AllocError, Global};
use wc_outside::NoMemory;

/// Searches for an assignment that satisfies the formula, and learns at most `limit` clauses. The answer is an
/// assignment that satisfies it, a log that is accepted, or a log that is worked at the limit: it has exactly `limit`
/// lines, and each of them follows and teaches.
///
/// It never gives up where 3 to the power of the number of variables is at most the limit, nor where unit propagation
/// alone refutes the formula.
pub fn solve(alloc: Global, cnf: &Cnf, limit: u32) -> Result<Verdict, NoMemory>
    requires some { 0 < limit }
    requires few { limit < most }
    ensures verdict { IfOk result (λ verdict. IsVerdict cnf.now limit verdict) }
    ensures small { IfOk result (λ verdict. IfGaveUp verdict (limit < 3 ^ cnf.now.variables)) }
    ensures closed { IfOk result (λ verdict. IfGaveUp verdict ((made : List ℤ) × IsClosed cnf.now.clauses made)) }
{
    match search(alloc, cnf, limit) {
        Ok(verdict) => Ok(verdict),
        Err(_) => Err(NoMemory),
    }
}

fn search(alloc: Global, cnf: &Cnf, limit: u32) -> Result<Verdict, AllocError>
    requires few { limit < most }
    ensures verdict { IfOk result (λ verdict. IsVerdict cnf.now limit verdict) }
    ensures small { IfOk result (λ verdict. IfGaveUp verdict (limit < 3 ^ cnf.now.variables)) }
{
    let mut search = Search::new(alloc, cnf)?;
    if let Some(conflict) = search.load_all(cnf)? {
        return refuted(
            alloc,
            cnf,
            search.lines,
            &search.known,
            &search.trail,
            conflict,
        );
    }
    let mut restarts = Restarts::new();
    for _line in 0..limit {
        match search.descend(cnf)? {
            None => return Ok(Verdict::Sat(assignment(alloc, &search.trail, cnf.variables)?)),
            Some(conflict) => {
                if search.starts.is_empty() {
                    return refuted(
                        alloc,
                        cnf,
                        search.lines,
                        &search.known,
                        &search.trail,
                        conflict,
                    );
                }
                search.learn(alloc, cnf, conflict)?;
                if restarts.is_over() {
                    search.restart(cnf)?;
                }
            }
        }
    }
    Ok(Verdict::GaveUp(Log {
        lines: Items::from_vec(search.lines),
    }))
}

// The verdict where a clause is false without any decision.
fn refuted(
    alloc: Global,
    cnf: &Cnf,
    lines: Vec<LogLine>,
    known: &Clauses,
    trail: &Trail,
    conflict: u32,
) -> Result<Verdict, AllocError>
    requires working { IsWorking cnf.now lines.items }
    requires few { length lines.items < most }
    requires stored { known.now ≡ clauses_of cnf.now lines.items }
    requires refuted { IsRefuted (clauses_of cnf.now lines.items) cnf.now trail.now conflict }
    ensures verdict { IfOk result (λ verdict. (limit : ℕ) → IsVerdict cnf.now limit verdict) }
    ensures ends { IfOk result (λ verdict. IfGaveUp verdict ⊥) }
{
    let hints = refute(alloc, known, trail, cnf.variables, conflict)?;
    let mut lines = lines;
    lines.push(LogLine::new(Clause::of_clause(alloc, &[])?, hints))?;
    Ok(Verdict::Unsat(Log {
        lines: Items::from_vec(lines),
    }))
}

// The values of the variables.
fn assignment(alloc: Global, trail: &Trail, variables: u32) -> Result<Assignment, AllocError>
    requires same { trail.now.variables ≡ variables }
    requires few { variables ≤ most }
    ensures { IfOk result (λ assignment. Assigns variables trail.now.literals assignment.values) }
{
    let mut values = Vec::new(alloc);
    for variable in 0..variables {
        values.push(trail.is_true(variable as i32 + 1))?;
    }
    Ok(Assignment::new(values))
}
