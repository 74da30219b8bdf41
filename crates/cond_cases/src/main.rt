//! Cases of the conditions of lists of edges, line by line. Headings are written as they are, and for each case its
//! answer stands on one line. A case has ` ## ` between its parts, and begins with a call, the text of a program with
//! `@` for each line feed, and a list of edges with blanks between them. Each block costs 1. The calls:
//!
//! - `weight ## TEXT ## EDGES`: the weight of the list;
//! - `drives ## TEXT ## EDGES ## INPUT; INPUT ..`: for each input, its numbers with blanks between them, whether all
//!   conditions of the list are nonzero, `yes` or `no`, and how the run of the program ends: its cost, `undefined` or
//!   `overbound`.
#![tactic(auto)]

mod answers;
mod lists;

use case_lines::{is_heading, parts};
use case_plans::{Wrong, plain_plan_of};
use flow_graph::Plan;
use std::alloc::{AllocError, Global};
use std::io;

fn main(rt: HostRuntime) -> io::Result<()> {
    for line in rt.lines(rt.alloc()) {
        let line = line?;
        if is_heading(line.as_str()) {
            println!(rt; "{line}")?;
        } else {
            let answer = answer(rt.alloc(), line.as_str())?;
            println!(rt; "{answer}")?;
        }
    }
    Ok(())
}

// The answer to the case on a line.
fn answer(alloc: Global, line: &str) -> Result<String, AllocError> {
    let parts = parts(alloc, line)?;
    match answered(alloc, parts.as_slice()) {
        Ok(text) => Ok(text),
        Err(wrong) => wrong.told(alloc),
    }
}

fn answered(alloc: Global, parts: &[&str]) -> Result<String, Wrong> {
    let text = parts.get(1).copied().ok_or(Wrong::NoCase)?;
    match plain_plan_of(alloc, text) {
        Ok(plan) => told(alloc, parts, &plan),
        Err(wrong) => Err(wrong),
    }
}

// What the call of a case answers.
fn told(alloc: Global, parts: &[&str], plan: &Plan) -> Result<String, Wrong> {
    match parts {
        ["weight", _, edges] => answers::weighed(alloc, plan, edges),
        ["drives", _, edges, inputs] => answers::driven(alloc, plan, edges, inputs),
        _ => Err(Wrong::NoCase),
    }
}
