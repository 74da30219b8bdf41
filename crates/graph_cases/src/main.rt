//! Cases of the graphs of programs, line by line. Headings are written as they are, and each case has its answer on one
//! line. A case has ` ## ` between its parts: the call, the text of a program with `@` for each line feed, and what is
//! given to the call. Each block costs 1. The calls:
//!
//! - `leaving`: for each node the edges that leave it, `True` first, or `-`;
//! - `spans`: where each loop copy stands: its first node, the node behind it, and that of its condition;
//! - `calls`: for each node, of a landing the block of its call, or `-`;
//! - `touches`: for each edge the loops that it enters, as `>` with the loop and its turns, and that of which it is the
//!   turn, as `+` with the loop, or `-`;
//! - `contents`: what each node does: how many simple statements; of a call how many locals the callee has and how many
//!   arguments are given; of a landing the type of the result and the block of the call;
//! - `list ## TEXT ## EDGES`: whether the edges follow the plan, and whether they keep the loops' bounds;
//! - `extend ## TEXT ## EDGES ## ROOM ## LIMITS`: how the list goes on with this room for each edge, but for those of
//! the limits, each an edge, `:` and its room. Of a list of more than 24 edges the answer has the count.
#![tactic(auto)]

mod case;
mod contents;
mod graphs;
mod lists;
mod walks;

use case::Case;
use case_lines::{is_heading, parts};
use case_plans::{Wrong, plain_plan_of};
use flow_graph::Plan;
use std::alloc::{AllocError, Global};
use std::io;

fn main(rt: HostRuntime) -> io::Result<()> {
    for line in rt.lines(rt.alloc()) {
        let line = line?;
        if is_heading(line.as_str()) {
            println!(rt; "{line}")?;
        } else {
            let answer = answer(rt.alloc(), line.as_str())?;
            println!(rt; "{answer}")?;
        }
    }
    Ok(())
}

// The answer to the case on a line.
fn answer(alloc: Global, line: &str) -> Result<String, AllocError> {
    let parts = parts(alloc, line)?;
    let case = Case::of(&parts);
    match answered(alloc, &case) {
        Ok(text) => Ok(text),
        Err(wrong) => wrong.told(alloc),
    }
}

fn answered(alloc: Global, case: &Case) -> Result<String, Wrong> {
    match plain_plan_of(alloc, case.text) {
        Ok(plan) => told(alloc, case, &plan),
        Err(wrong) => Err(wrong),
    }
}

// What the call of a case answers.
fn told(alloc: Global, case: &Case, plan: &Plan) -> Result<String, Wrong> {
    match case.call {
        "extend" => walks::extended(alloc, case, plan),
        "list" => walks::judged(alloc, case, plan),
        "contents" => contents::contents(alloc, plan),
        _ => told_of_graph(alloc, case, plan),
    }
}

fn told_of_graph(alloc: Global, case: &Case, plan: &Plan) -> Result<String, Wrong> {
    match case.call {
        "leaving" => graphs::leaving(alloc, plan),
        "spans" => graphs::spans(alloc, plan),
        "calls" => graphs::calls(alloc, plan),
        "touches" => graphs::touches(alloc, plan),
        _ => Err(Wrong::NoCase),
    }
}
