//! Made cases, whole or their last lines.

use crate::numbers::{name, size};
use crate::wrong::Wrong;
use case_lines::on_one_line;
use case_maker::make;
use std::alloc::{AllocError, Global};

/// Both texts of a made case.
pub(crate) fn whole(alloc: Global, number: &str, segments: &str) -> Result<String, Wrong> {
    let (program, table) = made(alloc, number, segments)?;
    both(alloc, program.as_slice(), table.as_slice())
}

fn both(alloc: Global, program: &[u8], table: &[u8]) -> Result<String, Wrong> {
    let mut text = on_one_line(alloc, text_of(program)?)?;
    text.push_str(" ## ")?;
    push_line(alloc, &mut text, table)?;
    Ok(text)
}

fn push_line(alloc: Global, text: &mut String, bytes: &[u8]) -> Result<(), Wrong> {
    let line = on_one_line(alloc, text_of(bytes)?)?;
    Ok(text.push_str(line.as_str())?)
}

/// Of both texts of a made case the number of bytes, and so many of its last lines.
pub(crate) fn last_lines(
    alloc: Global,
    number: &str,
    segments: &str,
    of_program: &str,
    of_table: &str,
) -> Result<String, Wrong> {
    let of_program = size(of_program)?;
    let of_table = size(of_table)?;
    let (program, table) = made(alloc, number, segments)?;
    ends(
        alloc,
        (program.as_slice(), of_program),
        (table.as_slice(), of_table),
    )
}

// The ends of both texts, each with how many lines are wanted.
fn ends(alloc: Global, program: (&[u8], u32), table: (&[u8], u32)) -> Result<String, Wrong> {
    let mut text = String::new(alloc);
    push_end(alloc, &mut text, text_of(program.0)?, program.1)?;
    text.push_str(" ## ")?;
    push_end(alloc, &mut text, text_of(table.0)?, table.1)?;
    Ok(text)
}

// The number of bytes of a text, and so many of its last lines.
fn push_end(alloc: Global, text: &mut String, made: &str, lines: u32) -> Result<(), AllocError> {
    push_length(alloc, text, made.len())?;
    let count = made.lines().count();
    for line in made.lines().skip(count.saturating_sub(lines as usize)) {
        text.push_str(line)?;
        text.push('@')?;
    }
    Ok(())
}

fn push_length(alloc: Global, text: &mut String, bytes: usize) -> Result<(), AllocError> {
    let length = format!(in alloc; "{bytes} bytes, ")?;
    text.push_str(length.as_str())
}

fn made(alloc: Global, number: &str, segments: &str) -> Result<(Vec<u8>, Vec<u8>), Wrong> {
    let segments = size(segments)?;
    if segments < 1 || segments > 64 {
        return Err(Wrong::NoCase);
    }
    Ok(make(alloc, name(number)?, segments)?)
}

fn text_of(bytes: &[u8]) -> Result<&str, Wrong> {
    str::from_utf8(bytes).ok().ok_or(Wrong::NoCase)
}
