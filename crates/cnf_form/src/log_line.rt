//! A line of a log's text.

ghost use Rattle.std.specs.Prelude.{◌≡◌, ◌++◌, ◌<◌, ◌^◌, [], codes, All, IfOk};
ghost use Rattle.cnf_form.specs.Literals.{most, IsClause};
ghost use Rattle.cnf_form.specs.Texts.{literals_text};
ghost use Rattle.cnf_form.specs.Reading.{Keeps};
ghost use Rattle.cnf_form.specs.LogReading.{IsLogCourse, HasNoCut, hints_behind};

use crate::clause::Clause;
use crate::cnf::MOST;
use crate::front::Front;
use crate::head::is_word;
use crate::log::LogLine;
use crate::number::number_of;
use crate::token::cut_at;
use std::alloc::{AllocError, Global};

/// How a line of a log goes.
#[derive(Drop)]
pub(crate) enum LogCourse {
    /// It is this line.
    Is(LogLine),
    /// It is none, and further bytes can make one of it.
    MayGrow,
    /// No further bytes can.
    Breaks,
}

// The greatest number that names a hint: a hint has 32 bits, and its number is one greater.
const TOP: u64 = 4_294_967_296;

/// How a line goes that is to be a line of a log.
pub(crate) fn read_log_line(alloc: Global, line: &[u8]) -> Result<LogCourse, AllocError>
    ensures { IfOk result (IsLogCourse line.now) }
{
    let mut front = Front::new(alloc, MOST, 1);
    let mut rest = line;
    while let Some((token, behind)) = cut_at(rest, b' ') {
        let Some(number) = front.next_number(token) else {
            return Ok(LogCourse::Breaks);
        };
        if number == 0 {
            let clause = Clause::of_clause(alloc, front.literals.as_slice())?;
            return read_hints(alloc, clause, behind);
        }
        front.push_literal(number)?;
        rest = behind;
    }
    Ok(open_clause(&front, rest))
}

// How a line goes whose last literal this is to be.
fn open_clause(front: &Front, rest: &[u8]) -> LogCourse
    requires keeps { Keeps front.now }
    requires variables { front.now.variables ≡ most }
    requires count { front.now.count ≡ 1 }
    requires clauses { front.now.clauses.items ≡ [] }
    requires bare { HasNoCut 32 rest.now }
    ensures { IsLogCourse (literals_text front.now.literals.items ++ rest.now) result }
{
    if rest.is_empty() {
        return LogCourse::MayGrow;
    }
    if front.may_grow(rest) {
        LogCourse::MayGrow
    } else {
        LogCourse::Breaks
    }
}

// How a line goes that has these hints behind its clause.
fn read_hints(alloc: Global, clause: Clause, text: &[u8]) -> Result<LogCourse, AllocError>
    requires { IsClause clause }
    ensures { IfOk result (IsLogCourse (literals_text clause ++ (codes "0 " ++ text.now))) }
{
    let mut hints = Vec::new(alloc);
    let mut rest = text;
    while let Some((token, behind)) = cut_at(rest, b' ') {
        let Some(number) = number_of(token, TOP) else {
            return Ok(LogCourse::Breaks);
        };
        if number == 0 {
            return Ok(LogCourse::Breaks);
        }
        hints.push((number - 1) as u32)?;
        rest = behind;
    }
    Ok(end_hints(clause, hints, rest))
}

// How a line goes behind its hints.
fn end_hints(clause: Clause, hints: Vec<u32>, rest: &[u8]) -> LogCourse
    requires clause { IsClause clause }
    requires small { All (λ hint. hint < 2 ^ 32) hints.items }
    requires bare { HasNoCut 32 rest.now }
    ensures { IsLogCourse (literals_text clause ++ (codes "0 " ++ (hints_behind hints.items ++ rest.now))) result }
{
    if is_word(rest, b"0\n") {
        return LogCourse::Is(LogLine::new(clause, hints));
    }
    if rest.is_empty() {
        return LogCourse::MayGrow;
    }
    match number_of(rest, TOP) {
        Some(_) => LogCourse::MayGrow,
        None => LogCourse::Breaks,
    }
}
