//! The texts of formulas and logs, written.

ghost use Rattle.std.specs.Prelude.{◌≡◌, ◌+◌, ◌++◌, ◌<◌, ◌^◌, codes, decimal, All, IfOk, OnOk};
ghost use Rattle.std.specs.List.{flat_map};
ghost use Rattle.cnf_form.specs.Forms.{IsCnfText, IsLogLine, IsLogText};
ghost use Rattle.cnf_form.specs.Texts.{literals_text, clause_text, cnf_text, hints_text, line_text, log_text};

use crate::clause::Clause;
use crate::cnf::Cnf;
use crate::log::{Log, LogLine};
use itoa::{Buffer, Integer};
use std::alloc::{AllocError, Global};
use wc_outside::NoMemory;

/// The text of a formula in DIMACS form: the line `p cnf V C`, with the numbers of variables and clauses, and then a
/// line per clause, its literals each followed by a blank, and `0`.
pub fn write_cnf(alloc: Global, cnf: &Cnf) -> Result<Vec<u8>, NoMemory>
    ensures text { IfOk result (λ text. text.items ≡ cnf_text cnf.now.variables cnf.now.clauses) }
    ensures form { IfOk result (λ text. IsCnfText text.items cnf.now.variables cnf.now.clauses) }
{
    match cnf_bytes(alloc, cnf) {
        Ok(text) => Ok(text),
        Err(_) => Err(NoMemory),
    }
}

fn cnf_bytes(alloc: Global, cnf: &Cnf) -> Result<Vec<u8>, AllocError>
    ensures { IfOk result (λ text. text.items ≡ cnf_text cnf.now.variables cnf.now.clauses) }
{
    let clauses = cnf.clauses();
    let mut text = Vec::from_slice(alloc, b"p cnf ")?;
    push_number(&mut text, cnf.variables)?;
    text.extend_from_slice(b" ")?;
    push_number(&mut text, clauses.len() as u32)?;
    text.extend_from_slice(b"\n")?;
    push_clauses(&mut text, clauses)?;
    Ok(text)
}

/// The text of a log: the line `p log N`, with the number of lines, and then a line each: the literals of its clause,
/// each followed by a blank, `0`, and per hint a blank and the hint's number plus 1, and ` 0`.
pub fn write_log(alloc: Global, log: &Log) -> Result<Vec<u8>, NoMemory>
    ensures text { IfOk result (λ text. text.items ≡ log_text log.now.lines) }
    ensures form { IfOk result (λ text. IsLogText text.items log.now.lines) }
{
    match log_bytes(alloc, log) {
        Ok(text) => Ok(text),
        Err(_) => Err(NoMemory),
    }
}

fn log_bytes(alloc: Global, log: &Log) -> Result<Vec<u8>, AllocError>
    ensures text { IfOk result (λ text. text.items ≡ log_text log.now.lines) }
    ensures each { OnOk result (All IsLogLine log.now.lines) }
{
    let lines = log.lines();
    let mut text = Vec::from_slice(alloc, b"p log ")?;
    push_number(&mut text, lines.len() as u32)?;
    text.extend_from_slice(b"\n")?;
    push_lines(&mut text, lines)?;
    Ok(text)
}

fn push_number(text: &mut Vec<u8>, number: u32) -> Result<(), AllocError>
    ensures { OnOk result (text.new.items ≡ text.old.items ++ decimal number) }
{
    let mut buffer = Buffer::new();
    text.extend_from_slice(buffer.format(number).as_bytes())
}

fn push_clauses(text: &mut Vec<u8>, clauses: &[Clause]) -> Result<(), AllocError>
    ensures { OnOk result (text.new.items ≡ text.old.items ++ flat_map clause_text clauses.now) }
{
    for clause in clauses {
        push_literals(text, clause.literals())?;
        text.extend_from_slice(b"0\n")?;
    }
    Ok(())
}

fn push_literals(text: &mut Vec<u8>, literals: &[i32]) -> Result<(), AllocError>
    ensures { OnOk result (text.new.items ≡ text.old.items ++ literals_text literals.now) }
{
    let mut buffer = Buffer::new();
    for literal in literals {
        text.extend_from_slice(buffer.format(*literal).as_bytes())?;
        text.extend_from_slice(b" ")?;
    }
    Ok(())
}

fn push_hints(text: &mut Vec<u8>, hints: &[u32]) -> Result<(), AllocError>
    ensures text { OnOk result (text.new.items ≡ text.old.items ++ hints_text hints.now) }
    ensures small { OnOk result (All (λ hint. hint < 2 ^ 32) hints.now) }
{
    let mut buffer = Buffer::new();
    for hint in hints {
        text.extend_from_slice(b" ")?;
        text.extend_from_slice(buffer.format(u64::from(*hint) + 1).as_bytes())?;
    }
    Ok(())
}

fn push_line(text: &mut Vec<u8>, line: &LogLine) -> Result<(), AllocError>
    ensures text { OnOk result (text.new.items ≡ text.old.items ++ line_text line.now) }
    ensures each { OnOk result (IsLogLine line.now) }
{
    push_literals(text, line.clause.literals())?;
    text.extend_from_slice(b"0")?;
    push_hints(text, line.hints())?;
    text.extend_from_slice(b" 0\n")
}

fn push_lines(text: &mut Vec<u8>, lines: &[LogLine]) -> Result<(), AllocError>
    ensures text { OnOk result (text.new.items ≡ text.old.items ++ flat_map line_text lines.now) }
    ensures each { OnOk result (All IsLogLine lines.now) }
{
    for line in lines {
        push_line(text, line)?;
    }
    Ok(())
}
