//! The answers to the cases.

use crate::formula::{blasted, compared, decoded};
use crate::gates::{satisfies, values_at};
use crate::solutions::{Found, searched_for};
use bit_blast::Blasted;
use case_lines::{is_heading, on_one_line, parts};
use cnf_form::{Assignment, write_cnf};
use std::alloc::{AllocError, Global};
use term_lines::{Wrong, numbers};

/// What is written for a line: a heading as it is, and for a case its answer.
pub(crate) fn told(alloc: Global, line: &str) -> Result<String, AllocError> {
    if is_heading(line) {
        return line.to_string(alloc);
    }
    match answer(alloc, line) {
        Ok(text) => Ok(text),
        Err(wrong) => wrong.told(alloc),
    }
}

fn answer(alloc: Global, line: &str) -> Result<String, Wrong> {
    let parts = parts(alloc, line)?;
    match parts.as_slice() {
        ["formula", inputs, terms, conditions] => {
            text_of(alloc, &blasted(alloc, inputs, terms, conditions)?)
        }
        ["decode", inputs, terms, conditions, values] => {
            read_by(alloc, &blasted(alloc, inputs, terms, conditions)?, values)
        }
        ["holds", name, lists] => each_holds(alloc, name, lists),
        ["solve", inputs, terms, conditions, limit] => {
            told_found(
                alloc,
                searched_for(alloc, inputs, terms, conditions, limit)?,
            )
        }
        ["verdict", inputs, terms, conditions, limit] => {
            told_verdict(
                alloc,
                searched_for(alloc, inputs, terms, conditions, limit)?,
            )
        }
        _ => Err(Wrong::NoCase),
    }
}

// What a search came to, with the numbers of the input.
fn told_found(alloc: Global, found: Found) -> Result<String, Wrong> {
    match found {
        Found::Solution(numbers) => Ok(format!(in alloc; "solution {numbers:?}")?),
        other => told_verdict(alloc, other),
    }
}

// What a search came to, without the numbers.
fn told_verdict(alloc: Global, found: Found) -> Result<String, Wrong> {
    let text = match found {
        Found::Solution(_) => "solution",
        Found::Unfit => "unfit",
        Found::NoSolution => "no solution",
        Found::GaveUp => "gave up",
    };
    Ok(text.to_string(alloc)?)
}

// The text of a formula.
fn text_of(alloc: Global, blasted: &Blasted) -> Result<String, Wrong> {
    let bytes = match write_cnf(alloc, blasted.cnf()) {
        Ok(bytes) => bytes,
        Err(_) => return Err(Wrong::NoMemory),
    };
    let text = str::from_utf8(bytes.as_slice()).ok().ok_or(Wrong::NoCase)?;
    Ok(on_one_line(alloc, text)?)
}

// What an assignment says, and whether it satisfies the formula.
fn read_by(alloc: Global, blasted: &Blasted, values: &str) -> Result<String, Wrong> {
    let mut bits = Vec::new(alloc);
    for bit in values.chars() {
        bits.push(bit == '1')?;
    }
    let satisfied = satisfies(bits.as_slice(), blasted.cnf());
    let numbers = decoded(alloc, blasted, &Assignment::new(bits))?;
    Ok(format!(in alloc; "{numbers:?} {satisfied}")?)
}

// For each list of words whether the formula that compares them holds.
fn each_holds(alloc: Global, name: &str, lists: &str) -> Result<String, Wrong> {
    let count = lists.split("; ").next().ok_or(Wrong::NoCase)?;
    let count = numbers(alloc, count)?.len();
    let blasted = compared(alloc, name, count)?;
    let mut text = String::new(alloc);
    for list in lists.split("; ") {
        let holds = list_holds(alloc, &blasted, list)?;
        let told = format!(in alloc; "{holds} ")?;
        text.push_str(told.as_str())?;
    }
    Ok(text)
}

fn list_holds(alloc: Global, blasted: &Blasted, list: &str) -> Result<bool, Wrong> {
    let words = numbers(alloc, list)?;
    let values = values_at(alloc, blasted.cnf(), words.as_slice())?;
    Ok(satisfies(values.as_slice(), blasted.cnf()))
}
