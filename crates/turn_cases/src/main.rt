//! Cases of the search for the dearest run, line by line. Headings are written as they are, and each case has its
//! answer on one line. A case has ` ## ` between its parts, and `@` in a text for each line feed:
//!
//! - `race ## TEXT ## TABLE ## TURNS ## CONFLICTS`: how the search for the dearest run of the text's `main` ends,
//! alone on a new board, with these limits, and the cost of the best run;
//! - `turns ## ..`: the same, and how many turns were settled.
#![tactic(auto)]

mod race;

use board_core::Board;
use case_lines::{is_heading, parts};
use case_plans::{Wrong, plan_of};
use flow_graph::Plan;
use ipet_peak::peak;
use ipet_rows::{SoundRows, rows};
use race_item::Limits;
use std::alloc::{AllocError, Global};
use std::io;

fn main(rt: HostRuntime) -> io::Result<()> {
    for line in rt.lines(rt.alloc()) {
        let line = line?;
        if is_heading(line.as_str()) {
            println!(rt; "{line}")?;
        } else {
            let answer = answer(rt.alloc(), line.as_str())?;
            println!(rt; "{answer}")?;
        }
    }
    Ok(())
}

// The answer to the case on a line.
fn answer(alloc: Global, line: &str) -> Result<String, AllocError> {
    let parts = parts(alloc, line)?;
    match answered(alloc, &parts) {
        Ok(text) => Ok(text),
        Err(wrong) => wrong.told(alloc),
    }
}

// The part number n, or nothing.
fn part<'l>(parts: &[&'l str], n: usize) -> &'l str {
    parts.get(n).copied().unwrap_or("")
}

fn answered(alloc: Global, parts: &[&str]) -> Result<String, Wrong> {
    let limits = limits(part(parts, 3), part(parts, 4))?;
    match plan_of(alloc, part(parts, 1), part(parts, 2)) {
        Ok(plan) => planned(alloc, part(parts, 0), limits, &plan),
        Err(wrong) => Err(wrong),
    }
}

fn limits(turns: &str, conflicts: &str) -> Result<Limits, Wrong> {
    let turns = number(turns)?;
    let conflicts = number(conflicts)?;
    Ok(Limits { turns, conflicts })
}

fn number(word: &str) -> Result<u32, Wrong> {
    word.parse::<u32>().ok().ok_or(Wrong::NoCase)
}

fn planned(alloc: Global, call: &str, limits: Limits, plan: &Plan) -> Result<String, Wrong> {
    match rows(alloc, plan) {
        Ok(rows) => started(alloc, call, limits, &rows),
        Err(_) => Err(Wrong::NoMemory),
    }
}

fn started<'p>(
    alloc: Global,
    call: &str,
    limits: Limits,
    rows: &'p SoundRows<'p>,
) -> Result<String, Wrong> {
    if limits.turns == 0 || limits.turns > 16_384 {
        return Err(Wrong::NoCase);
    }
    if limits.conflicts == 0 || limits.conflicts > 100_000 {
        return Err(Wrong::NoCase);
    }
    let peak = peak(alloc, rows.plan())?;
    match Board::start(alloc, rows, &peak, limits) {
        Ok(mut board) => race::told(alloc, call, rows, limits, &mut board),
        Err(_) => Err(Wrong::NoMemory),
    }
}
