//! Lists of numbers on one line.

use c_tree::Input;
use case_plans::Wrong;
use sqlite_items::Items;
use std::alloc::{AllocError, Global};

/// Puts a piece at the end, after a mark if anything stands there.
pub(crate) fn push_apart(text: &mut String, mark: &str, piece: &str) -> Result<(), AllocError> {
    if !text.is_empty() {
        text.push_str(mark)?;
    }
    text.push_str(piece)
}

/// The edges with a blank between two.
pub(crate) fn shown(alloc: Global, edges: &[u16]) -> Result<String, AllocError> {
    if edges.is_empty() {
        return String::from_str(alloc, "no edge");
    }
    let mut text = String::new(alloc);
    for e in edges {
        push_apart(&mut text, " ", format!(in alloc; "{e}")?.as_str())?;
    }
    Ok(text)
}

/// The edges that stand in a text with blanks between them.
pub(crate) fn edges(alloc: Global, text: &str) -> Result<Vec<u16>, Wrong> {
    let mut list = Vec::new(alloc);
    for word in text.split_ascii_whitespace() {
        list.push(word.parse::<u16>().ok().ok_or(Wrong::NoCase)?)?;
    }
    Ok(list)
}

/// The input whose values stand in a text with blanks between them.
pub(crate) fn input(alloc: Global, text: &str) -> Result<Input, Wrong> {
    let mut values = Items::new(alloc);
    for word in text.split_ascii_whitespace() {
        values.push(word.parse::<i64>().ok().ok_or(Wrong::NoCase)?)?;
    }
    Ok(Input { values })
}
