//! Boxes: made, narrowed and split.

use crate::numbers::{count, limits, name};
use crate::rows::rows_over;
use crate::wrong::Wrong;
use count_box::{Tight, split_at, tighten};
use lin_rows::CountBox;
use std::alloc::{AllocError, Global};

/// The box of limits.
pub(crate) fn box_of(alloc: Global, text: &str) -> Result<CountBox, Wrong> {
    CountBox::new(limits(alloc, text)?).ok_or(Wrong::Refused)
}

/// The limits of a box, after `ok`, or `none`.
pub(crate) fn made(alloc: Global, text: &str) -> Result<String, Wrong> {
    match CountBox::new(limits(alloc, text)?) {
        Some(within) => Ok(with_limits(alloc, "ok", &within)?),
        None => Ok("none".to_string(alloc)?),
    }
}

// A word, and the limits of a box.
fn with_limits(alloc: Global, word: &str, within: &CountBox) -> Result<String, AllocError> {
    let mut text = word.to_string(alloc)?;
    push_limits(alloc, &mut text, within)?;
    Ok(text)
}

fn push_limits(alloc: Global, text: &mut String, within: &CountBox) -> Result<(), AllocError> {
    for (least, greatest) in within.limits() {
        let limit = format!(in alloc; " {least}..{greatest}")?;
        text.push_str(limit.as_str())?;
    }
    Ok(())
}

/// What narrowing by rows says of a box, and the limits that it leaves.
pub(crate) fn tightened(alloc: Global, rows: &str, text: &str) -> Result<String, Wrong> {
    let mut within = box_of(alloc, text)?;
    let word = narrow(alloc, rows, &mut within)?;
    Ok(with_limits(alloc, word, &within)?)
}

fn narrow(alloc: Global, rows: &str, within: &mut CountBox) -> Result<&'static str, Wrong> {
    let rows = rows_over(alloc, within.limits().len(), rows)?;
    if within.limits().len() != rows.edges as usize {
        return Err(Wrong::Lengths);
    }
    Ok(match tighten(&rows, within) {
        Tight::Narrowed => "narrowed",
        Tight::Empty => "empty",
    })
}

/// The limits of the parts of a box that is split at a count of an edge.
pub(crate) fn split(alloc: Global, text: &str, edge: &str, value: &str) -> Result<String, Wrong> {
    let parts = parts_of(alloc, text, name(edge)?, count(value)?)?;
    Ok(parts_told(alloc, parts.as_slice())?)
}

fn parts_of(alloc: Global, text: &str, edge: u16, value: u64) -> Result<Vec<CountBox>, Wrong> {
    let within = box_of(alloc, text)?;
    parts(alloc, &within, edge, value)
}

// The parts, where the edge and the value are ones at which the box is split.
fn parts(alloc: Global, within: &CountBox, edge: u16, value: u64) -> Result<Vec<CountBox>, Wrong> {
    if usize::from(edge) >= within.limits().len() {
        return Err(Wrong::Refused);
    }
    let (least, greatest) = within.limits()[usize::from(edge)];
    if value < least || value > greatest || least >= greatest {
        return Err(Wrong::Refused);
    }
    Ok(split_at(alloc, within, edge, value)?)
}

fn parts_told(alloc: Global, parts: &[CountBox]) -> Result<String, AllocError> {
    let mut text = "parts".to_string(alloc)?;
    for (number, part) in parts.iter().enumerate() {
        if number > 0 {
            text.push(';')?;
        }
        push_limits(alloc, &mut text, part)?;
    }
    Ok(text)
}
