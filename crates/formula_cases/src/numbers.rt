//! Lists of numbers and truth values, with blanks between them.

use crate::wrong::Wrong;
use std::alloc::Global;

/// The literals that stand in a text.
pub(crate) fn literals(alloc: Global, text: &str) -> Result<Vec<i32>, Wrong> {
    let mut numbers = Vec::new(alloc);
    for word in text.split_ascii_whitespace() {
        numbers.push(word.parse::<i32>().ok().ok_or(Wrong::NoCase)?)?;
    }
    Ok(numbers)
}

/// The hints that stand in a text.
pub(crate) fn hints(alloc: Global, text: &str) -> Result<Vec<u32>, Wrong> {
    let mut numbers = Vec::new(alloc);
    for word in text.split_ascii_whitespace() {
        numbers.push(number(word)?)?;
    }
    Ok(numbers)
}

/// The number that a word is.
pub(crate) fn number(word: &str) -> Result<u32, Wrong> {
    word.parse::<u32>().ok().ok_or(Wrong::NoCase)
}

/// The truth values that stand in a text.
pub(crate) fn values(alloc: Global, text: &str) -> Result<Vec<bool>, Wrong> {
    let mut values = Vec::new(alloc);
    for word in text.split_ascii_whitespace() {
        values.push(word == "true")?;
    }
    Ok(values)
}
