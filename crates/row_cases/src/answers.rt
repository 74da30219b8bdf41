//! The answers to the cases.

use crate::wrong::Wrong;
use crate::{bounds, boxes, cases, lists, rows};
use case_lines::{is_heading, parts};
use std::alloc::{AllocError, Global};

/// What is written for a line: a heading as it is, and for a case its answer.
pub(crate) fn told(alloc: Global, line: &str) -> Result<String, AllocError> {
    if is_heading(line) {
        return line.to_string(alloc);
    }
    match answer(alloc, line) {
        Ok(text) => Ok(text),
        Err(wrong) => wrong.told(alloc),
    }
}

fn answer(alloc: Global, line: &str) -> Result<String, Wrong> {
    let parts = parts(alloc, line)?;
    by_number(alloc, parts.as_slice())
}

// The answer by the number of parts behind the kind of the case.
fn by_number(alloc: Global, parts: &[&str]) -> Result<String, Wrong> {
    match parts {
        [kind, text] => with_one(alloc, kind, text),
        [kind, first, second] => with_two(alloc, kind, first, second),
        [kind, first, second, third] => with_three(alloc, kind, first, second, third),
        [kind, first, second, third, fourth] => {
            with_four(alloc, kind, first, second, third, fourth)
        }
        [kind, first, second, third, fourth, fifth] => {
            with_five(alloc, kind, first, second, third, fourth, fifth)
        }
        _ => Err(Wrong::NoCase),
    }
}

fn with_one(alloc: Global, kind: &str, text: &str) -> Result<String, Wrong> {
    match kind {
        "box" => boxes::made(alloc, text),
        "objective" => lists::objective_again(alloc, text),
        _ => Err(Wrong::NoCase),
    }
}

fn with_two(alloc: Global, kind: &str, first: &str, second: &str) -> Result<String, Wrong> {
    match kind {
        "rows" => rows::again(alloc, first, second),
        "multipliers" => lists::multipliers_again(alloc, first, second),
        "meets" => bounds::meeting(alloc, first, second),
        "tighten" => boxes::tightened(alloc, first, second),
        "make" => cases::whole(alloc, first, second),
        _ => Err(Wrong::NoCase),
    }
}

fn with_three(
    alloc: Global,
    kind: &str,
    first: &str,
    second: &str,
    third: &str,
) -> Result<String, Wrong> {
    match kind {
        "split" => boxes::split(alloc, first, second, third),
        _ => Err(Wrong::NoCase),
    }
}

fn with_four(
    alloc: Global,
    kind: &str,
    first: &str,
    second: &str,
    third: &str,
    fourth: &str,
) -> Result<String, Wrong> {
    match kind {
        "fits" => bounds::fits(alloc, first, second, third, fourth),
        "last lines" => cases::last_lines(alloc, first, second, third, fourth),
        _ => Err(Wrong::NoCase),
    }
}

fn with_five(
    alloc: Global,
    kind: &str,
    first: &str,
    second: &str,
    third: &str,
    fourth: &str,
    fifth: &str,
) -> Result<String, Wrong> {
    match kind {
        "bound" => bounds::bound(alloc, first, second, third, fourth, fifth),
        _ => Err(Wrong::NoCase),
    }
}
