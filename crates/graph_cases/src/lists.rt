//! Lists on one line.

use case_plans::Wrong;
use std::alloc::{AllocError, Global};

/// The most edges of a list that is shown whole.
const WHOLE: usize = 24;

/// Puts a piece at the end, after a mark if anything stands there.
pub(crate) fn push_apart(text: &mut String, mark: &str, piece: &str) -> Result<(), AllocError> {
    if !text.is_empty() {
        text.push_str(mark)?;
    }
    text.push_str(piece)
}

/// The numbers with a blank between two, or how many there are where they are many or none.
pub(crate) fn shown(alloc: Global, edges: &[u16]) -> Result<String, AllocError> {
    let count = edges.len();
    if count == 0 {
        return String::from_str(alloc, "no edge");
    }
    if count > WHOLE {
        return format!(in alloc; "{count} edges");
    }
    let mut text = String::new(alloc);
    for e in edges {
        push_apart(&mut text, " ", format!(in alloc; "{e}")?.as_str())?;
    }
    Ok(text)
}

/// The edges that stand in a text with blanks between them.
pub(crate) fn edges(alloc: Global, text: &str) -> Result<Vec<u16>, Wrong> {
    let mut list = Vec::new(alloc);
    for word in text.split_ascii_whitespace() {
        list.push(edge(word)?)?;
    }
    Ok(list)
}

/// The edge that a word is.
pub(crate) fn edge(word: &str) -> Result<u16, Wrong> {
    word.parse::<u16>().ok().ok_or(Wrong::NoCase)
}

/// The room that a word is.
pub(crate) fn room(word: &str) -> Result<u64, Wrong> {
    word.parse::<u64>().ok().ok_or(Wrong::NoCase)
}
