//! The answers to the cases.

ghost use Rattle.report_text.specs.Conditions.{IsTellable};

use crate::told::{number_of_values, report_told};
use crate::wrong::Wrong;
use case_lines::{bytes_of, is_heading, on_one_line, parts};
use report_text::{Report, end_lines, front_lines, lines, read_report, value_lines};
use std::alloc::{AllocError, Global};

/// What is written for a line: a heading as it is, and for a case its answer.
pub(crate) fn told(alloc: Global, line: &str) -> Result<String, AllocError> {
    if is_heading(line) {
        return line.to_string(alloc);
    }
    match answer(alloc, line) {
        Ok(text) => Ok(text),
        Err(wrong) => wrong.told(alloc),
    }
}

fn answer(alloc: Global, line: &str) -> Result<String, Wrong> {
    let parts = parts(alloc, line)?;
    match parts.as_slice() {
        [kind, text] => answer_to(alloc, kind, text),
        _ => Err(Wrong::NoCase),
    }
}

fn answer_to(alloc: Global, kind: &str, part: &str) -> Result<String, Wrong> {
    let bytes = bytes_of(alloc, part)?;
    let text = bytes.as_slice();
    if text.len() > MOST_BYTES {
        return Err(Wrong::NoCase);
    }
    answer_of(alloc, kind, &read_report(alloc, text)?)
}

// No text of a case is longer.
const MOST_BYTES: usize = 1_000_000;

fn answer_of(alloc: Global, kind: &str, report: &Report) -> Result<String, Wrong>
    requires { IsTellable report.now }
{
    match kind {
        "read" => Ok(report_told(alloc, report)?),
        "again" => again(alloc, report),
        "pieces" => pieces(alloc, report),
        "count" => Ok(number_of_values(alloc, report)?),
        _ => Err(Wrong::NoCase),
    }
}

fn again(alloc: Global, report: &Report) -> Result<String, Wrong>
    requires { IsTellable report.now }
{
    let bytes = lines(alloc, report)?;
    line_of(alloc, bytes.as_slice())
}

fn line_of(alloc: Global, bytes: &[u8]) -> Result<String, Wrong> {
    let text = str::from_utf8(bytes).ok().ok_or(Wrong::NoCase)?;
    Ok(on_one_line(alloc, text)?)
}

fn pieces(alloc: Global, report: &Report) -> Result<String, Wrong> {
    let mut bytes = front_lines(alloc, report.copies, report.ipet)?;
    let mut before = None;
    for value in report.shown.as_slice() {
        bytes.extend_from_slice(value_lines(alloc, before, *value)?.as_slice())?;
        before = Some(*value);
    }
    bytes.extend_from_slice(end_lines(alloc, &report.last)?.as_slice())?;
    line_of(alloc, bytes.as_slice())
}
