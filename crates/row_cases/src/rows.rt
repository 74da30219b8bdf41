//! Rows that are read from a text, and written again.

use crate::numbers::{integer, name, size};
use crate::wrong::Wrong;
use lin_rows::{Row, RowKind, Rows};
use std::alloc::{AllocError, Global};

/// The rows over so many edges that stand in a text.
pub(crate) fn rows_over(alloc: Global, edges: usize, text: &str) -> Result<Rows, Wrong> {
    let edges = u32::try_from(edges).ok().ok_or(Wrong::NoCase)?;
    rows(alloc, edges, text)?.ok_or(Wrong::Refused)
}

// The same, or `None` where the rows are refused.
fn rows(alloc: Global, edges: u32, text: &str) -> Result<Option<Rows>, Wrong> {
    Ok(Rows::new(list(alloc, text)?, edges))
}

fn list(alloc: Global, text: &str) -> Result<Vec<Row>, Wrong> {
    let mut rows = Vec::new(alloc);
    if text.is_empty() {
        return Ok(rows);
    }
    for part in text.split(';') {
        rows.push(row(alloc, part)?)?;
    }
    Ok(rows)
}

fn row(alloc: Global, text: &str) -> Result<Row, Wrong> {
    if let Some((left, right)) = text.split_once("<=") {
        return row_of(alloc, left, RowKind::AtMost, right);
    }
    let (left, right) = text.split_once("=").ok_or(Wrong::NoCase)?;
    row_of(alloc, left, RowKind::Equal, right)
}

fn row_of(alloc: Global, left: &str, kind: RowKind, right: &str) -> Result<Row, Wrong> {
    let right = integer(right.trim())?;
    Ok(Row::new(terms(alloc, left)?, kind, right))
}

fn terms(alloc: Global, text: &str) -> Result<Vec<(u16, i128)>, Wrong> {
    let mut terms = Vec::new(alloc);
    for word in text.split_ascii_whitespace() {
        terms.push(term(word)?)?;
    }
    Ok(terms)
}

fn term(word: &str) -> Result<(u16, i128), Wrong> {
    let (edge, factor) = word.split_once(":").ok_or(Wrong::NoCase)?;
    Ok((name(edge)?, integer(factor)?))
}

/// The rows over so many edges that stand in a text, written again after `ok`, or `none`.
pub(crate) fn again(alloc: Global, edges: &str, text: &str) -> Result<String, Wrong> {
    match rows(alloc, size(edges)?, text)? {
        Some(rows) => Ok(written(alloc, &rows)?),
        None => Ok("none".to_string(alloc)?),
    }
}

fn written(alloc: Global, rows: &Rows) -> Result<String, AllocError> {
    let mut text = "ok".to_string(alloc)?;
    for (number, row) in rows.rows().iter().enumerate() {
        if number > 0 {
            text.push(';')?;
        }
        push_row(alloc, &mut text, row)?;
    }
    Ok(text)
}

fn push_row(alloc: Global, text: &mut String, row: &Row) -> Result<(), AllocError> {
    push_terms(alloc, text, row.terms())?;
    let sign = match row.kind {
        RowKind::AtMost => "<=",
        RowKind::Equal => "=",
    };
    let right = row.right;
    let side = format!(in alloc; " {sign} {right}")?;
    text.push_str(side.as_str())
}

fn push_terms(alloc: Global, text: &mut String, terms: &[(u16, i128)]) -> Result<(), AllocError> {
    for (edge, factor) in terms {
        let term = format!(in alloc; " {edge}:{factor}")?;
        text.push_str(term.as_str())?;
    }
    Ok(())
}
