//! Made cases, taken up again by the tool.

use crate::case::{shelf_of, whole_sink};
use crate::judging::told;
use case_lines::CaseFault;
use squeeze_top::{Status, wcet_main};
use std::alloc::Global;
use std::sync::Wait;
use std::thread::Threads;
use wc_outside::{MemShelf, OpenGate};

/// What `ipet` tells of the two texts that `make` writes for the number and the size of a case.
pub fn bound_of_made<R: Threads + Wait + Sync>(
    rt: &R,
    alloc: Global,
    asked: &str,
) -> Result<String, CaseFault> {
    let (case, size) = asked.split_once(' ').ok_or(CaseFault::Form)?;
    let program = made(rt, alloc, &["make", "--case", case, "--size", size])?;
    let table = made(
        rt,
        alloc,
        &["make", "--table", "--case", case, "--size", size],
    )?;
    let mut shelf = shelf_of(alloc, program, table, Vec::new(alloc))?;
    let mut out = whole_sink(alloc)?;
    let words = ["ipet", "f.c", "--costs", "t.toml"];
    let status = wcet_main(rt, alloc, &words, &mut shelf, &mut out, &OpenGate);
    told(alloc, status, &out)
}

// The text that these words ask for.
fn made<R: Threads + Wait + Sync>(
    rt: &R,
    alloc: Global,
    words: &[&str],
) -> Result<Vec<u8>, CaseFault> {
    let mut shelf = MemShelf::new(Vec::new(alloc), Vec::new(alloc));
    let mut out = whole_sink(alloc)?;
    match wcet_main(rt, alloc, words, &mut shelf, &mut out, &OpenGate) {
        Status::Whole => Ok(out.bytes().to_vec(alloc)?),
        _ => Err(CaseFault::Form),
    }
}
