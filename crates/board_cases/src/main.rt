//! Cases of boards, line by line. Headings are written as they are, and each case has its answer on one line. A case
//! has ` ## ` between its parts: the call, the text of a program and its table of costs, with `@` for each line feed,
//! the limit of turns, and what is given to the call. A path is its edges and an input its values, with blanks between
//! them. The calls:
//!
//! - `fork ## TEXT ## TABLE ## TURNS ## INPUT`: the split of the first item by an input: its children;
//! - `path ## TEXT ## TABLE ## TURNS ## INPUT ## EDGES`: what a path and an input settle of the first item;
//! - `race ## TEXT ## TABLE ## TURNS ## INPUT ## EDGES ## INPUT`: the race of two in `race.rt`.
#![tactic(auto)]

mod case;
mod lists;
mod race;
mod trials;
mod words;

use board_core::Board;
use case::Case;
use case_lines::{is_heading, parts};
use case_plans::{Wrong, plan_of};
use flow_graph::Plan;
use ipet_peak::peak;
use ipet_rows::{SoundRows, rows};
use race_item::Limits;
use std::alloc::{AllocError, Global};
use std::io;

fn main(rt: HostRuntime) -> io::Result<()> {
    for line in rt.lines(rt.alloc()) {
        let line = line?;
        if is_heading(line.as_str()) {
            println!(rt; "{line}")?;
        } else {
            let answer = answer(rt.alloc(), line.as_str())?;
            println!(rt; "{answer}")?;
        }
    }
    Ok(())
}

// The answer to the case on a line.
fn answer(alloc: Global, line: &str) -> Result<String, AllocError> {
    let parts = parts(alloc, line)?;
    let case = Case::of(&parts);
    match answered(alloc, &case) {
        Ok(text) => Ok(text),
        Err(wrong) => wrong.told(alloc),
    }
}

fn answered(alloc: Global, case: &Case) -> Result<String, Wrong> {
    match plan_of(alloc, case.text, case.table) {
        Ok(plan) => planned(alloc, case, &plan),
        Err(wrong) => Err(wrong),
    }
}

fn planned(alloc: Global, case: &Case, plan: &Plan) -> Result<String, Wrong> {
    match rows(alloc, plan) {
        Ok(rows) => started(alloc, case, &rows),
        Err(_) => Err(Wrong::NoMemory),
    }
}

// What the call of a case answers on a new board.
fn started<'p>(alloc: Global, case: &Case, rows: &'p SoundRows<'p>) -> Result<String, Wrong> {
    let Some(turns) = case.turns.parse::<u32>().ok() else {
        return Err(Wrong::NoCase);
    };
    if turns == 0 || turns > 16_384 {
        return Err(Wrong::NoCase);
    }
    let limits = Limits {
        turns,
        conflicts: 10_000,
    };
    let peak = peak(alloc, rows.plan())?;
    match Board::start(alloc, rows, &peak, limits) {
        Ok(mut board) => told(alloc, case, &mut board),
        Err(_) => Err(Wrong::NoMemory),
    }
}

fn told<'p>(alloc: Global, case: &Case, board: &mut Board<'p>) -> Result<String, Wrong> {
    match case.call {
        "fork" => trials::forked(alloc, case, board),
        "path" => trials::found(alloc, case, board),
        "race" => race::raced(alloc, case, board),
        _ => Err(Wrong::NoCase),
    }
}
