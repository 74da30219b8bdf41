//! From a shelf to the plan, in the order of work.

ghost use Rattle.std.specs.Prelude.{◌≡◌, ◌≤◌, length, IfOk, IfErr};
ghost use Rattle.wc_outside.specs.Contents.{OnFile};
ghost use Rattle.c_tree.specs.Meaning.Claims.{AreCostsOf};
ghost use Rattle.front_end.specs.Files.{source_of, HasProgram, HasCosts, IsReady, IsFront};
ghost use Rattle.front_end.specs.Refusing.{IsInput};
ghost use Rattle.front_end.specs.Halts.{IsFileHalt, IsInputHalt, IsHalt, Counts};

use crate::planning::plan_of;
use crate::pricing::costs_of;
use crate::reading::program_of;
use crate::refusal::{ProgramRefusal, Refusal, TableRefusal};
use crate::stop::Halt;
use c_input::read_input;
use c_tree::{Costs, Input, Program};
use cost_table::plain_costs;
use flow_graph::Plan;
use std::alloc::Global;
use wc_outside::{ReadFault, Shelf, read_whole};

/// Where the texts come from.
#[derive(Clone, Copy)]
pub struct Source<'a> {
    /// The file of the program.
    pub file: &'a str,
    /// The entry function.
    pub entry: &'a str,
    /// The text of the input, where the program is to be run.
    pub input: Option<&'a str>,
    /// The file of the table of costs. Without one each block costs 1.
    pub table: Option<&'a str>,
}

/// What texts that are accepted give: the plan, which has the program and its costs, and the input of a run.
#[derive(Drop)]
pub struct Front {
    pub plan: Plan,
    pub input: Option<Input>,
}

/// Reads and plans, in the order of work: the program's bytes and their size, its tokens, its unit, its names, kinds
/// and bounds; the input; the table's bytes and their size, and its costs; the limits of the flat graph. The first that
/// is wrong is told; want of memory may come before any of them. What is said of a file holds where the shelf tells its
/// contents.
pub fn front_end<S: Shelf>(alloc: Global, shelf: &mut S, source: &Source) -> Result<Front, Halt>
    ensures front { IfOk result (IsFront (source_of source.now) (S.contents shelf.old)) }
    ensures halted { IfErr result (λ halt. IsHalt halt (source_of source.now) (S.contents shelf.old)) }
    ensures counts { Counts result (S.faults shelf.old) (S.faults shelf.new) }
    ensures same { S.contents shelf.new ≡ S.contents shelf.old }
{
    let program = read_program(alloc, shelf, source)?;
    let input = input_of(alloc, source, &program)?;
    let costs = read_costs(alloc, shelf, source, &program)?;
    let plan = plan_of(alloc, program, costs)?;
    Ok(Front { plan, input })
}

// The program of the file.
fn read_program<S: Shelf>(alloc: Global, shelf: &mut S, source: &Source) -> Result<Program, Halt>
    ensures program { IfOk result (HasProgram (source_of source.now) (S.contents shelf.old)) }
    ensures halted { IfErr result (λ halt. IsHalt halt (source_of source.now) (S.contents shelf.old)) }
    ensures counts { Counts result (S.faults shelf.old) (S.faults shelf.new) }
    ensures same { S.contents shelf.new ≡ S.contents shelf.old }
{
    let too_long = Refusal::Program(ProgramRefusal::Size);
    let text = read_file(alloc, shelf, source.file, too_long)?;
    Ok(program_of(alloc, &text, source.entry)?)
}

// The input of the program, where it is to be run.
fn input_of(alloc: Global, source: &Source, program: &Program) -> Result<Option<Input>, Halt>
    ensures input { IfOk result (IsInput (source_of source.now).input program.now) }
    ensures halted { IfErr result (λ halt. IsInputHalt halt (source_of source.now).input program.now) }
{
    let Some(text) = source.input else {
        return Ok(None);
    };
    match read_input(alloc, program, text)? {
        Some(input) => Ok(Some(input)),
        None => Err(Halt::Refused(Refusal::Input)),
    }
}

// The costs of its blocks, by the table or plain.
fn read_costs<S: Shelf>(
    alloc: Global,
    shelf: &mut S,
    source: &Source,
    program: &Program,
) -> Result<Costs, Halt>
    requires ready { IsReady (source_of source.now) (S.contents shelf.old) program.now }
    ensures priced { IfOk result (HasCosts (source_of source.now) (S.contents shelf.old) program.now) }
    ensures costs { IfOk result (AreCostsOf program.now) }
    ensures halted { IfErr result (λ halt. IsHalt halt (source_of source.now) (S.contents shelf.old)) }
    ensures counts { Counts result (S.faults shelf.old) (S.faults shelf.new) }
    ensures same { S.contents shelf.new ≡ S.contents shelf.old }
{
    match source.table {
        None => Ok(plain_costs(alloc, program)?),
        Some(name) => {
            let too_long = Refusal::Table(TableRefusal::Size);
            let table = read_file(alloc, shelf, name, too_long)?;
            Ok(costs_of(alloc, program, &table)?)
        }
    }
}

// The bytes of a file; `too_long` is the refusal of more than 1,048,576.
fn read_file<S: Shelf>(
    alloc: Global,
    shelf: &mut S,
    name: &str,
    too_long: Refusal,
) -> Result<Vec<u8>, Halt>
    ensures whole { IfOk result (λ text. OnFile (S.contents shelf.old) name.now (λ bytes. bytes ≡ text.items)) }
    ensures short { IfOk result (λ text. length text.items ≤ 1048576) }
    ensures halted { IfErr result (λ halt. IsFileHalt halt too_long (S.contents shelf.old) name.now) }
    ensures counts { Counts result (S.faults shelf.old) (S.faults shelf.new) }
    ensures same { S.contents shelf.new ≡ S.contents shelf.old }
{
    match read_whole(alloc, shelf, name) {
        Ok(text) => Ok(text),
        Err(ReadFault::TooLong) => Err(Halt::Refused(too_long)),
        Err(ReadFault::Failed) => Err(Halt::ReadFault),
        Err(ReadFault::NoMemory) => Err(Halt::NoMemory),
    }
}
