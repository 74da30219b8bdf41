//! Numbers, and lists of numbers with blanks between them.

use crate::wrong::Wrong;
use std::alloc::Global;

/// The number that a word is.
pub(crate) fn integer(word: &str) -> Result<i128, Wrong> {
    word.parse::<i128>().ok().ok_or(Wrong::NoCase)
}

/// The count or cost that a word is.
pub(crate) fn count(word: &str) -> Result<u64, Wrong> {
    word.parse::<u64>().ok().ok_or(Wrong::NoCase)
}

/// The number of edges, or the size, that a word is.
pub(crate) fn size(word: &str) -> Result<u32, Wrong> {
    word.parse::<u32>().ok().ok_or(Wrong::NoCase)
}

/// The edge, or the number of a case, that a word is.
pub(crate) fn name(word: &str) -> Result<u16, Wrong> {
    word.parse::<u16>().ok().ok_or(Wrong::NoCase)
}

/// The multipliers that stand in a text.
pub(crate) fn integers(alloc: Global, text: &str) -> Result<Vec<i128>, Wrong> {
    let mut numbers = Vec::new(alloc);
    for word in text.split_ascii_whitespace() {
        numbers.push(integer(word)?)?;
    }
    Ok(numbers)
}

/// The counts or costs that stand in a text.
pub(crate) fn counts(alloc: Global, text: &str) -> Result<Vec<u64>, Wrong> {
    let mut numbers = Vec::new(alloc);
    for word in text.split_ascii_whitespace() {
        numbers.push(count(word)?)?;
    }
    Ok(numbers)
}

/// The limits that stand in a text.
pub(crate) fn limits(alloc: Global, text: &str) -> Result<Vec<(u64, u64)>, Wrong> {
    let mut limits = Vec::new(alloc);
    for word in text.split_ascii_whitespace() {
        limits.push(limit(word)?)?;
    }
    Ok(limits)
}

fn limit(word: &str) -> Result<(u64, u64), Wrong> {
    let (least, greatest) = word.split_once("..").ok_or(Wrong::NoCase)?;
    Ok((count(least)?, count(greatest)?))
}
