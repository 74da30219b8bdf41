//! The text of a report, written in pieces: while the search goes on, and where it may be cut short.

ghost use Rattle.std.specs.Prelude.{◌≡◌, IfOk};
ghost use Rattle.report_text.specs.Texts as spec;

use crate::report::{Last, Shown};
use crate::write::{push_front, push_last, push_value};
use std::alloc::{AllocError, Global};
use wc_outside::NoMemory;

/// The lines `blocks N` and `ipet N`, with which every report begins: the number of block copies, and the first bound.
pub fn front_lines(alloc: Global, copies: u32, ipet: u128) -> Result<Vec<u8>, NoMemory>
    ensures { IfOk result (λ text. text.items ≡ spec.lines_text (spec.front_lines copies ipet)) }
{
    match front_bytes(alloc, copies, ipet) {
        Ok(text) => Ok(text),
        Err(_) => Err(NoMemory),
    }
}

fn front_bytes(alloc: Global, copies: u32, ipet: u128) -> Result<Vec<u8>, AllocError>
    ensures { IfOk result (λ text. text.items ≡ spec.lines_text (spec.front_lines copies ipet)) }
{
    let mut text = Vec::new(alloc);
    push_front(&mut text, copies, ipet)?;
    Ok(text)
}

/// The lines of a shown value behind the one before it, which is none for the first: `bound N` or `bound none` where
/// the bound differs or the value is the first, then `found N` where the best differs and is there. So there may be
/// none.
pub fn value_lines(alloc: Global, before: Option<Shown>, value: Shown) -> Result<Vec<u8>, NoMemory>
    ensures { IfOk result (λ text. text.items ≡ spec.lines_text (spec.value_lines before value)) }
{
    match value_bytes(alloc, before, value) {
        Ok(text) => Ok(text),
        Err(_) => Err(NoMemory),
    }
}

fn value_bytes(alloc: Global, before: Option<Shown>, value: Shown) -> Result<Vec<u8>, AllocError>
    ensures { IfOk result (λ text. text.items ≡ spec.lines_text (spec.value_lines before value)) }
{
    let mut text = Vec::new(alloc);
    push_value(&mut text, before, value)?;
    Ok(text)
}

/// The lines with which a report ends: `exact N` and the line of the input; or `none`; or `inexact N`, the best, and
/// what was spent with its limit.
pub fn end_lines(alloc: Global, last: &Last) -> Result<Vec<u8>, NoMemory>
    ensures { IfOk result (λ text. text.items ≡ spec.lines_text (spec.last_lines last.now)) }
{
    match end_bytes(alloc, last) {
        Ok(text) => Ok(text),
        Err(_) => Err(NoMemory),
    }
}

fn end_bytes(alloc: Global, last: &Last) -> Result<Vec<u8>, AllocError>
    ensures { IfOk result (λ text. text.items ≡ spec.lines_text (spec.last_lines last.now)) }
{
    let mut text = Vec::new(alloc);
    push_last(&mut text, last)?;
    Ok(text)
}
