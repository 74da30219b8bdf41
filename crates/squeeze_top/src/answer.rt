//! What each mode answers, of texts that are accepted.

ghost use Rattle.std.specs.Prelude.{◌≡◌, ◌≤◌, ◌<◌, ◌^◌, ◌++◌, IsTrue, IfOk, OnOk};
ghost use Rattle.c_tree.specs.Meaning.Runs as runs;
ghost use Rattle.c_run.specs.Ends.{end_of_run};
ghost use Rattle.word_line.specs.Jobs.{is_plain, has_file};
ghost use Rattle.front_end.specs.declared.status.Status.TheVariants.{Whole};
ghost use Rattle.front_end.specs.Refusing.{IsInput};
ghost use Rattle.squeeze_top.specs.Answers as spec;
ghost use Rattle.squeeze_top.specs.Jobs.{job_input};

use c_print::print;
use c_run::{RunEnd, run};
use c_tree::{Func, Input, NoMemory};
use case_maker::make;
use flow_graph::Plan;
use front_end::{Front, Status};
use ipet_peak::peak;
use itoa::Buffer;
use sqlite_items::Items;
use std::alloc::{AllocError, Global};
use word_line::{Job, Mode};

/// An answer: how the tool ends where it is written, and its text.
#[derive(Drop)]
pub(crate) struct Answer {
    pub(crate) status: Status,
    pub(crate) text: Vec<u8>,
}

/// The answer of the job's mode over its texts.
pub(crate) fn answer_of(alloc: Global, job: &Job, front: &Front) -> Result<Answer, NoMemory>
    requires plain { IsTrue (is_plain job.now.mode) }
    requires file { IsTrue (has_file job.now.mode) }
    requires input { IsInput (job_input job.now.mode job.now.input) front.now.plan.program front.now.input }
    ensures whole { IfOk result (λ a. a.status ≡ Whole) }
    ensures told { IfOk result (λ a. let plan = front.now.plan in
        spec.Tells job.now.mode job.now plan.program plan.costs a.status a.text.items) }
{
    let plan = &front.plan;
    match job.mode {
        Mode::Bound => Ok(whole(bound_text(alloc, plan)?)),
        Mode::Ipet => Ok(whole(ipet_text(alloc, plan)?)),
        Mode::Blocks => Ok(whole(blocks_text(alloc, plan)?)),
        Mode::Run => match &front.input {
            Some(input) => Ok(whole(run_text(alloc, plan, input)?)),
            None => unreachable!(),
        },
        Mode::Print => Ok(whole(print(alloc, plan.program())?)),
        Mode::Squeeze | Mode::Make | Mode::Workout => unreachable!(),
    }
}

/// The answer of a made case: the text of its program; or that of its table, where the job asks for it.
pub(crate) fn case_answer(alloc: Global, job: &Job) -> Result<Answer, NoMemory>
    requires some { 1 ≤ job.now.size }
    requires few { job.now.size ≤ 64 }
    ensures whole { IfOk result (λ a. a.status ≡ Whole) }
    ensures told { IfOk result (λ a. spec.TellsCase job.now a.text.items) }
{
    let Ok((program, table)) = make(alloc, job.case, job.size) else {
        return Err(NoMemory);
    };
    Ok(whole(if job.table { table } else { program }))
}

// The answer of a mode whose job is done.
fn whole(text: Vec<u8>) -> Answer
    ensures { result ≡ record { status = Whole; text = text } }
{
    Answer {
        status: Status::Whole,
        text,
    }
}

fn run_text(alloc: Global, plan: &Plan, input: &Input) -> Result<Vec<u8>, NoMemory>
    requires { IsTrue (runs.fits plan.now.program input.now) }
    ensures { IfOk result (λ text. text.items
        ≡ spec.run_line (end_of_run plan.now.costs (runs.run plan.now.program input.now))) }
{
    let end = run(alloc, plan.program(), plan.costs(), input)?;
    Ok(run_line(alloc, end)?)
}

fn blocks_text(alloc: Global, plan: &Plan) -> Result<Vec<u8>, NoMemory>
    ensures { IfOk result (λ text. text.items ≡ spec.block_lines plan.now.program.funcs plan.now.costs.by_func) }
{
    let funcs = plan.program().funcs.as_slice();
    Ok(block_lines(alloc, funcs, plan.costs().by_func.as_slice())?)
}

fn bound_text(alloc: Global, plan: &Plan) -> Result<Vec<u8>, NoMemory>
    ensures { IfOk result (λ text. spec.TellsBound plan.now.program plan.now.costs text.items) }
{
    let peak = peak(alloc, plan)?;
    Ok(bound_line(alloc, peak.value)?)
}

fn ipet_text(alloc: Global, plan: &Plan) -> Result<Vec<u8>, NoMemory>
    ensures { IfOk result (λ text. spec.TellsPeak plan.now.program plan.now.costs text.items) }
{
    let peak = peak(alloc, plan)?;
    Ok(ipet_lines(alloc, plan.copies(), peak.value)?)
}

fn ipet_lines(alloc: Global, copies: u32, bound: u128) -> Result<Vec<u8>, AllocError>
    ensures lines { IfOk result (λ lines. lines.items ≡ spec.ipet_lines copies bound) }
    ensures fits { bound < 2 ^ 128 }
{
    let mut buffer = Buffer::new();
    let mut lines = Vec::from_slice(alloc, b"blocks ")?;
    lines.extend_from_slice(buffer.format(copies).as_bytes())?;
    lines.extend_from_slice(b"\nipet ")?;
    lines.extend_from_slice(buffer.format(bound).as_bytes())?;
    lines.extend_from_slice(b"\n")?;
    Ok(lines)
}

fn bound_line(alloc: Global, bound: u128) -> Result<Vec<u8>, AllocError>
    ensures line { IfOk result (λ line. line.items ≡ spec.bound_line bound) }
    ensures fits { bound < 2 ^ 128 }
{
    let mut buffer = Buffer::new();
    let mut line = Vec::from_slice(alloc, b"bound ")?;
    line.extend_from_slice(buffer.format(bound).as_bytes())?;
    line.extend_from_slice(b"\n")?;
    Ok(line)
}

fn run_line(alloc: Global, end: RunEnd) -> Result<Vec<u8>, AllocError>
    ensures { IfOk result (λ line. line.items ≡ spec.run_line end) }
{
    match end {
        RunEnd::Ends { cost } => ends_line(alloc, cost),
        RunEnd::Undefined => Vec::from_slice(alloc, b"undefined\n"),
        RunEnd::OverBound => Vec::from_slice(alloc, b"overbound\n"),
    }
}

fn ends_line(alloc: Global, cost: u128) -> Result<Vec<u8>, AllocError>
    ensures { IfOk result (λ line. line.items ≡ spec.run_line (RunEnd.Ends cost)) }
{
    let mut buffer = Buffer::new();
    let mut line = Vec::from_slice(alloc, b"ends ")?;
    line.extend_from_slice(buffer.format(cost).as_bytes())?;
    line.extend_from_slice(b"\n")?;
    Ok(line)
}

// The lines of all blocks.
fn block_lines(alloc: Global, funcs: &[Func], rows: &[Items<u32>]) -> Result<Vec<u8>, AllocError>
    ensures { IfOk result (λ text. text.items ≡ spec.block_lines funcs.now rows.now) }
{
    let mut text = Vec::new(alloc);
    for (func, row) in funcs.iter().zip(rows) {
        add_func_lines(&mut text, func.name.as_slice(), row.as_slice())?;
    }
    Ok(text)
}

// Adds those of a function.
fn add_func_lines(text: &mut Vec<u8>, function: &[u8], row: &[u32]) -> Result<(), AllocError>
    ensures { OnOk result (text.new.items ≡ text.old.items ++ spec.func_lines function.now 0 row.now) }
{
    for (number, cost) in row.iter().enumerate() {
        add_block_line(text, function, number, *cost)?;
    }
    Ok(())
}

fn add_block_line(
    text: &mut Vec<u8>,
    function: &[u8],
    number: usize,
    cost: u32,
) -> Result<(), AllocError>
    ensures { OnOk result (text.new.items ≡ text.old.items ++ spec.block_line function.now number cost) }
{
    let mut buffer = Buffer::new();
    text.extend_from_slice(function)?;
    text.extend_from_slice(b":")?;
    text.extend_from_slice(buffer.format(number).as_bytes())?;
    text.extend_from_slice(b" ")?;
    text.extend_from_slice(buffer.format(cost).as_bytes())?;
    text.extend_from_slice(b"\n")
}
