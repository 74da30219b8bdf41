//! What the top call tells of a case.

use crate::case::{part, shelf, sink, words};
use crate::made::bound_of_made;
use crate::real::read_of;
use case_lines::{CaseFault, on_one_line, parts};
use squeeze_top::{Status, wcet_main};
use std::alloc::{AllocError, Global};
use std::rt::Files;
use std::sync::Wait;
use std::thread::Threads;
use wc_outside::{FileShelf, MemSink, OpenGate, Shelf};

/// The answer to a case on its line, or why the line is no case.
pub fn answer_to<R: AllocGlobal + Files + Threads + Wait + Sync>(
    rt: &R,
    alloc: Global,
    line: &str,
) -> Result<String, AllocError> {
    match judged(rt, alloc, line) {
        Ok(answer) => Ok(answer),
        Err(fault) => format!(in alloc; "{fault:?}"),
    }
}

fn judged<R: AllocGlobal + Files + Threads + Wait + Sync>(
    rt: &R,
    alloc: Global,
    line: &str,
) -> Result<String, CaseFault> {
    if let Some(asked) = line.strip_prefix("read ") {
        return read_of(rt, alloc, asked);
    }
    if let Some(asked) = line.strip_prefix("made ") {
        return bound_of_made(rt, alloc, asked);
    }
    let parts = parts(alloc, line)?;
    let words = words(alloc, part(&parts, 0))?;
    let mut out = sink(alloc, &parts)?;
    let status = if parts.len() == 1 {
        called(rt, alloc, &words, &mut FileShelf::new(rt), &mut out)?
    } else {
        called(rt, alloc, &words, &mut shelf(alloc, &parts)?, &mut out)?
    };
    told(alloc, status, &out)
}

// The status of the call.
fn called<R: Threads + Wait + Sync, S: Shelf>(
    rt: &R,
    alloc: Global,
    words: &[String],
    shelf: &mut S,
    out: &mut MemSink,
) -> Result<Status, AllocError> {
    let words: Vec<&str> = words.iter().map(|word| word.as_str()).collect(alloc)?;
    Ok(wcet_main(rt, alloc, &words, shelf, out, &OpenGate))
}

/// The status and what was written, on one line.
pub fn told(alloc: Global, status: Status, out: &MemSink) -> Result<String, CaseFault> {
    let text = str::from_utf8(out.bytes()).ok().ok_or(CaseFault::Form)?;
    let line = on_one_line(alloc, text)?;
    Ok(format!(in alloc; "{} {line}", status.code())?)
}
