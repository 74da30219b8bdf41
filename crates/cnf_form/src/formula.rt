//! The texts of formulas, read.

ghost use Rattle.std.specs.Prelude.{◌≡◌, ◌<◌, ◌≤◌, ◌^◌, length, IfOk, IfErr};
ghost use Rattle.text_lines.specs.Lines.{LeavesAt};
ghost use Rattle.cnf_form.specs.Literals.{most};
ghost use Rattle.cnf_form.specs.Forms.{IsCnfText, IsFormulaText};
ghost use Rattle.cnf_form.specs.Faults.{IsFaultOf};
ghost use Rattle.cnf_form.specs.Reading.{Keeps, TakesTold};
ghost use Rattle.cnf_form.specs.Places.{BehindHead, InClauses};

use crate::clause_line::read_words;
use crate::cnf::Cnf;
use crate::comment::is_comment;
use crate::course::Course;
use crate::form_fault::FormFault;
use crate::front::Front;
use crate::head::{Head, head_of};
use std::alloc::{AllocError, Global};
use text_lines::first_line;

// What a formula's text says before its clauses, and where they begin.
#[derive(Drop)]
struct Opening<'a> {
    variables: u32,
    count: u32,
    rest: &'a [u8],
    line: u32,
}

/// The formula that a text in DIMACS form says. Lines that begin with `c` are comments, and stand anywhere. The first
/// other line is `p cnf V C`: it begins with its `p`, and blanks stand between its words and may end it. The numbers of
/// the clauses follow, with blanks and line ends between them; a 0 ends each clause. A number is decimal digits without
/// a leading zero, with `-` before those of a negative literal. There are exactly C clauses, none of them names a
/// variable above V or twice, and V and C are at most 2,147,483,647. Blanks are space and tab.
pub fn read_cnf(alloc: Global, text: &[u8]) -> Result<Cnf, FormFault>
    requires { length text.now < 2 ^ 32 }
    ensures read { IfOk result (λ cnf. IsCnfText text.now cnf.variables cnf.clauses) }
    ensures fault { IfErr result (IsFaultOf IsFormulaText text.now) }
{
    match read_opening(text) {
        Ok(opening) => {
            let front = Front::new(alloc, opening.variables, opening.count);
            read_clauses(alloc, text, opening.rest, opening.line, front)
        }
        Err(line) => Err(FormFault::NotForm { line }),
    }
}

// The text up to and with the line `p cnf V C`, or the line at which it leaves the form.
fn read_opening(text: &[u8]) -> Result<Opening<'_>, u32>
    requires { length text.now < 2 ^ 32 }
    ensures read { IfOk result (λ opening. BehindHead text.now opening.rest.now opening.line opening.variables
        opening.count) }
    ensures few_variables { IfOk result (λ opening. opening.variables ≤ most) }
    ensures few_clauses { IfOk result (λ opening. opening.count ≤ most) }
    ensures fault { IfErr result (LeavesAt IsFormulaText text.now) }
{
    let mut rest = text;
    let mut line = 0;
    while !rest.is_empty() {
        let (first, after) = first_line(rest);
        if !is_comment(first) {
            return match head_of(first) {
                Head::Is { variables, count } => Ok(Opening {
                    variables,
                    count,
                    rest: after,
                    line: line + 1,
                }),
                Head::MayGrow => Err(line + 1),
                Head::Breaks => Err(line),
            };
        }
        rest = after;
        line += 1;
    }
    Err(line)
}

// The clauses in the rest of a text.
fn read_clauses(
    alloc: Global,
    text: &[u8],
    rest: &[u8],
    line: u32,
    front: Front,
) -> Result<Cnf, FormFault>
    requires short { length text.now < 2 ^ 32 }
    requires keeps { Keeps front }
    requires place { InClauses text.now rest.now line front }
    ensures read { IfOk result (λ cnf. IsCnfText text.now cnf.variables cnf.clauses) }
    ensures fault { IfErr result (IsFaultOf IsFormulaText text.now) }
{
    let mut rest = rest;
    let mut line = line;
    let mut front = front;
    while !rest.is_empty() {
        let (first, after) = first_line(rest);
        match read_line(alloc, &mut front, first)? {
            Course::Fits => {}
            Course::MayGrow => return Err(FormFault::NotForm { line: line + 1 }),
            Course::Breaks => return Err(FormFault::NotForm { line }),
        }
        rest = after;
        line += 1;
    }
    if front.clauses.len() != front.count as usize {
        return Err(FormFault::NotForm { line });
    }
    Ok(front.into_formula())
}

// Goes on with a line that may be a comment.
fn read_line(alloc: Global, front: &mut Front, line: &[u8]) -> Result<Course, AllocError>
    requires { Keeps front.old }
    ensures { IfOk result (TakesTold front.old front.new line.now) }
{
    if is_comment(line) {
        return Ok(Course::Fits);
    }
    read_words(alloc, front, line)
}
