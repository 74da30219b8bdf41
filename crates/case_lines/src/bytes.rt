//! The bytes that a part of a case stands for.

use std::alloc::{AllocError, AllocFailed, Global};

/// Why a line is no case.
#[derive(Clone, Copy, Debug, PartialEq, Eq)]
pub enum CaseFault {
    /// A part is not of its form.
    Form,
    /// Memory was wanting.
    NoMemory,
}

impl<T: Drop> From<AllocFailed<T>> for CaseFault {
    fn from(_error: AllocFailed<T>) -> CaseFault {
        CaseFault::NoMemory
    }
}

impl From<AllocError> for CaseFault {
    fn from(_error: AllocError) -> CaseFault {
        CaseFault::NoMemory
    }
}

/// The bytes of a part: a line feed for each `@`, the byte of this number for each `\` and two hexadecimal digits, and
/// for `\[`, a count, a blank, a piece and `\]` the piece so many times; any other character stands for itself. `Form`
/// comes where a `\` begins none of these.
pub fn bytes_of(alloc: Global, part: &str) -> Result<Vec<u8>, CaseFault> {
    let mut bytes = Vec::new(alloc);
    for (number, piece) in part.split("\\[").enumerate() {
        if number == 0 {
            add_once(&mut bytes, piece)?;
        } else {
            add_repeated(alloc, &mut bytes, piece)?;
        }
    }
    Ok(bytes)
}

// Adds what stands behind a `\[`.
fn add_repeated(alloc: Global, bytes: &mut Vec<u8>, text: &str) -> Result<(), CaseFault> {
    let (count, text) = text.split_once(' ').ok_or(CaseFault::Form)?;
    let (piece, rest) = text.split_once("\\]").ok_or(CaseFault::Form)?;
    let count = count.parse::<u32>().ok().ok_or(CaseFault::Form)?;
    let mut repeated = Vec::new(alloc);
    add_once(&mut repeated, piece)?;
    for _ in 0..count {
        bytes.extend_from_slice(&repeated)?;
    }
    add_once(bytes, rest)
}

// Adds a text in which no piece is repeated.
fn add_once(bytes: &mut Vec<u8>, text: &str) -> Result<(), CaseFault> {
    for (number, piece) in text.split('\\').enumerate() {
        let plain = if number == 0 {
            piece
        } else {
            let (digits, plain) = piece.split_at_checked(2).ok_or(CaseFault::Form)?;
            bytes.push(u8::from_str_radix(digits, 16).ok().ok_or(CaseFault::Form)?)?;
            plain
        };
        add_plain(bytes, plain)?;
    }
    Ok(())
}

// Adds a text with a line feed for each `@`.
fn add_plain(bytes: &mut Vec<u8>, text: &str) -> Result<(), CaseFault> {
    for byte in text.bytes() {
        bytes.push(if byte == b'@' { b'\n' } else { byte })?;
    }
    Ok(())
}
