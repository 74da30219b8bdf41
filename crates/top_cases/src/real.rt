//! Reads of the real files beside the program.

use case_lines::{CaseFault, on_one_line};
use std::alloc::Global;
use std::rt::Files;
use wc_outside::{FileShelf, Shelf};

/// What a read gives of a file's name, the place of the first byte and the most bytes: how many, and which; or that it
/// failed. A read of no byte is asked for one.
pub fn read_of<R: Files>(rt: &R, alloc: Global, asked: &str) -> Result<String, CaseFault> {
    let (name, places) = asked.split_once(' ').ok_or(CaseFault::Form)?;
    let (from, most) = places.split_once(' ').ok_or(CaseFault::Form)?;
    let from = from.parse::<u64>().ok().ok_or(CaseFault::Form)?;
    let most = most.parse::<u16>().ok().ok_or(CaseFault::Form)?;
    let mut into = vec![in alloc; 0; usize::from(most.max(1))]?;
    match FileShelf::new(rt).read_at(name, from, &mut into) {
        Ok(count) => shown(alloc, &into[..count]),
        Err(_) => Ok(String::from_str(alloc, "failed")?),
    }
}

// How many bytes, and which.
fn shown(alloc: Global, bytes: &[u8]) -> Result<String, CaseFault> {
    let text = str::from_utf8(bytes).ok().ok_or(CaseFault::Form)?;
    let line = on_one_line(alloc, text)?;
    Ok(format!(in alloc; "{} {line}", bytes.len())?)
}
