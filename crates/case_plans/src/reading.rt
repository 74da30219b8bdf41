//! From texts and tables of costs to plans. No program and no plan is alive where a call may fail.

ghost use Rattle.std.specs.Prelude.{◌≤◌, All, length, IfOk};
ghost use Rattle.c_tree.specs.Checking.Checked.{IsSpelled};
ghost use Rattle.c_tree.specs.Tokens.Lexing.{Lexes};
ghost use Rattle.c_parse.specs.Lexeme.{IsWithin};

use crate::wrong::Wrong;
use c_check::check;
use c_parse::{ordered_tokens_are_within, parse};
use c_token::tokens;
use c_tree::{Program, Token, Unit};
use case_lines::with_lines;
use cost_table::{costs, plain_costs};
use flow_graph::{Plan, plan};
use std::alloc::Global;

/// The plan of a text, whose entry is `main`, with the costs of a table. `@` stands for each line feed of both.
pub fn plan_of(alloc: Global, text: &str, table: &str) -> Result<Plan, Wrong> {
    let table = with_lines(alloc, table)?;
    if table.len() > 1_048_576 {
        return Err(Wrong::NoCase);
    }
    match program_of(alloc, text) {
        Ok(program) => planned(alloc, program, table.as_bytes()),
        Err(wrong) => Err(wrong),
    }
}

/// The plan of a text, whose entry is `main`, where each block costs 1. `@` stands for each line feed.
pub fn plain_plan_of(alloc: Global, text: &str) -> Result<Plan, Wrong> {
    match program_of(alloc, text) {
        Ok(program) => plainly_planned(alloc, program),
        Err(wrong) => Err(wrong),
    }
}

fn planned(alloc: Global, program: Program, table: &[u8]) -> Result<Plan, Wrong> {
    match costs(alloc, &program, table) {
        Ok(costs) => match plan(alloc, program, costs) {
            Ok(plan) => Ok(plan),
            Err(_) => Err(Wrong::NoPlan),
        },
        Err(_) => Err(Wrong::NoPlan),
    }
}

fn plainly_planned(alloc: Global, program: Program) -> Result<Plan, Wrong> {
    match plain_costs(alloc, &program) {
        Ok(costs) => match plan(alloc, program, costs) {
            Ok(plan) => Ok(plan),
            Err(_) => Err(Wrong::NoPlan),
        },
        Err(_) => Err(Wrong::NoMemory),
    }
}

fn program_of(alloc: Global, text: &str) -> Result<Program, Wrong> {
    let text = with_lines(alloc, text)?;
    if text.len() > 1_048_576 {
        return Err(Wrong::NoCase);
    }
    match unit_of(alloc, text.as_bytes()) {
        Ok(unit) => checked(alloc, unit),
        Err(wrong) => Err(wrong),
    }
}

fn checked(alloc: Global, unit: Unit) -> Result<Program, Wrong>
    requires { IsSpelled unit }
{
    match check(alloc, unit, "main") {
        Ok(program) => Ok(program),
        Err(_) => Err(Wrong::NoPlan),
    }
}

fn unit_of(alloc: Global, text: &[u8]) -> Result<Unit, Wrong>
    requires { length text.now ≤ 1048576 }
    ensures { IfOk result IsSpelled }
{
    let tokens = tokens_of(alloc, text)?;
    match parse(alloc, text, &tokens) {
        Ok(unit) => Ok(unit),
        Err(_) => Err(Wrong::NoPlan),
    }
}

fn tokens_of(alloc: Global, text: &[u8]) -> Result<Vec<Token>, Wrong>
    requires { length text.now ≤ 1048576 }
    ensures lexed { IfOk result (λ ts. Lexes text.now ts.items) }
    ensures within { IfOk result (λ ts. All (IsWithin text.now) ts.items) }
{
    ordered_tokens_are_within();
    match tokens(alloc, text) {
        Ok(tokens) => Ok(tokens),
        Err(_) => Err(Wrong::NoPlan),
    }
}
