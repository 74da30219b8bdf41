//! What a report says, on one line.

use report_text::{Last, Report, Shown, Spent};
use std::alloc::{AllocError, Global};

/// The parts of a report, after `ok`.
pub(crate) fn report_told(alloc: Global, report: &Report) -> Result<String, AllocError> {
    let copies = report.copies;
    let ipet = report.ipet;
    let mut text = format!(in alloc; "ok {copies} {ipet}")?;
    push_values(alloc, &mut text, report.shown.as_slice())?;
    push_last(alloc, &mut text, &report.last)?;
    Ok(text)
}

/// How many shown values a report has.
pub(crate) fn number_of_values(alloc: Global, report: &Report) -> Result<String, AllocError> {
    let count = report.shown.as_slice().len();
    format!(in alloc; "{count} values")
}

fn push_values(alloc: Global, text: &mut String, values: &[Shown]) -> Result<(), AllocError> {
    for value in values {
        text.push_str("; ")?;
        push_maybe(alloc, text, value.bound)?;
        text.push(' ')?;
        push_maybe(alloc, text, value.best)?;
    }
    Ok(())
}

fn push_maybe(alloc: Global, text: &mut String, cost: Option<u128>) -> Result<(), AllocError> {
    match cost {
        Some(cost) => push_number(alloc, text, cost),
        None => text.push_str("none"),
    }
}

fn push_number(alloc: Global, text: &mut String, number: u128) -> Result<(), AllocError> {
    let digits = format!(in alloc; "{number}")?;
    text.push_str(digits.as_str())
}

fn push_last(alloc: Global, text: &mut String, last: &Last) -> Result<(), AllocError> {
    match last {
        Last::Exact(bound, input) => push_exact(alloc, text, *bound, input.as_slice()),
        Last::Nothing => text.push_str("; nothing"),
        Last::Inexact {
            bound,
            best,
            spent,
            limit,
        } => {
            push_inexact(alloc, text, *bound, *best)?;
            push_spent(alloc, text, *spent, *limit)
        }
    }
}

fn push_exact(
    alloc: Global,
    text: &mut String,
    bound: u128,
    input: &[u8],
) -> Result<(), AllocError> {
    text.push_str("; exact ")?;
    push_number(alloc, text, bound)?;
    for byte in input {
        text.push(' ')?;
        push_number(alloc, text, u128::from(*byte))?;
    }
    Ok(())
}

fn push_inexact(
    alloc: Global,
    text: &mut String,
    bound: u128,
    best: Option<u128>,
) -> Result<(), AllocError> {
    text.push_str("; inexact ")?;
    push_number(alloc, text, bound)?;
    text.push(' ')?;
    push_maybe(alloc, text, best)
}

fn push_spent(
    alloc: Global,
    text: &mut String,
    spent: Spent,
    limit: u32,
) -> Result<(), AllocError> {
    text.push_str(spent_word(spent))?;
    push_number(alloc, text, u128::from(limit))
}

fn spent_word(spent: Spent) -> &'static str {
    match spent {
        Spent::Turns => " turns ",
        Spent::Conflicts => " conflicts ",
        Spent::Weight => " weight ",
    }
}
