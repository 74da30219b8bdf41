//! What a case has: words, files and a place for what is written.

use case_lines::{CaseFault, bytes_of};
use std::alloc::{AllocError, Global};
use wc_outside::{MemShelf, MemSink};

/// How many bytes a write takes where a case does not say it.
const MOST: usize = 64;

/// The part of this number, empty where it is wanting.
pub fn part<'a>(parts: &[&'a str], number: usize) -> &'a str {
    match parts.get(number) {
        Some(part) => part,
        None => "",
    }
}

/// The words of a part, each between blanks; an empty part has none.
pub fn words(alloc: Global, part: &str) -> Result<Vec<String>, CaseFault> {
    let mut words = Vec::new(alloc);
    if !part.is_empty() {
        for word in part.split(' ') {
            words.push(text(alloc, word)?)?;
        }
    }
    Ok(words)
}

// The text of a part.
fn text(alloc: Global, part: &str) -> Result<String, CaseFault> {
    String::from_utf8(bytes_of(alloc, part)?)
        .ok()
        .ok_or(CaseFault::Form)
}

// The numbers of a part, each between blanks; an empty part has none.
fn numbers(alloc: Global, part: &str) -> Result<Vec<u64>, CaseFault> {
    let mut numbers = Vec::new(alloc);
    if !part.is_empty() {
        for number in part.split(' ') {
            numbers.push(number.parse::<u64>().ok().ok_or(CaseFault::Form)?)?;
        }
    }
    Ok(numbers)
}

/// The shelf of a case.
pub fn shelf(alloc: Global, parts: &[&str]) -> Result<MemShelf, CaseFault> {
    let program = bytes_of(alloc, part(parts, 1))?;
    let table = bytes_of(alloc, part(parts, 2))?;
    Ok(shelf_of(alloc, program, table, numbers(alloc, part(parts, 3))?)?)
}

/// The shelf with the program `f.c` and the table `t.toml`.
pub fn shelf_of(
    alloc: Global,
    program: Vec<u8>,
    table: Vec<u8>,
    fails: Vec<u64>,
) -> Result<MemShelf, AllocError> {
    let mut files = Vec::new(alloc);
    files.push((String::from_str(alloc, "f.c")?, program))?;
    files.push((String::from_str(alloc, "t.toml")?, table))?;
    Ok(MemShelf::new(files, fails))
}

/// A sink of which no write fails.
pub fn whole_sink(alloc: Global) -> Result<MemSink, CaseFault> {
    MemSink::new(alloc, MOST, Vec::new(alloc))
        .ok()
        .ok_or(CaseFault::NoMemory)
}

/// The sink of a case.
pub fn sink(alloc: Global, parts: &[&str]) -> Result<MemSink, CaseFault> {
    let numbers = numbers(alloc, part(parts, 4))?;
    let (most, fails) = match numbers.as_slice() {
        [most, fails @ ..] => ((*most as usize).max(1), fails),
        [] => (MOST, [].as_slice()),
    };
    let fails = fails.to_vec(alloc)?;
    MemSink::new(alloc, most, fails)
        .ok()
        .ok_or(CaseFault::NoMemory)
}
