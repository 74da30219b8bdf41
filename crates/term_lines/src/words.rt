//! Lists of numbers with blanks between them.

use crate::wrong::Wrong;
use std::alloc::Global;

/// The numbers of some words.
pub fn numbers(alloc: Global, text: &str) -> Result<Vec<u32>, Wrong> {
    let mut numbers = Vec::new(alloc);
    for word in text.split_ascii_whitespace() {
        numbers.push(word.parse::<u32>().ok().ok_or(Wrong::NoCase)?)?;
    }
    Ok(numbers)
}
