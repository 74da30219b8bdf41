//! The run of a program on an input.

ghost use Rattle.std.specs.Prelude.{◌≡◌, IsTrue, IfOk};
ghost use Rattle.c_tree.specs.Meaning.Claims.{AreCostsOf};
ghost use Rattle.c_tree.specs.Meaning.Runs as spec;
ghost use Rattle.c_run.specs.Ends.{end_of_run};
ghost use Rattle.c_run.specs.Machine.{entry_run_end};

use crate::machine::{Given, Machine, Task};
use crate::run_end::RunEnd;
use c_input::{Start, start_of};
use c_tree::{Costs, Func, Input, NoMemory, Program};
use c_ways::{Memory, entry_slots};
use run_laws::costs_of_runs_fit;
use std::alloc::Global;
use typed_laws::program_is_well_formed;

/// Runs a program on an input, and answers how the run ends (C11 6.5, 6.8): with the sum of the costs of the blocks
/// that it enters, or at a step that is undefined, or where a loop's bound would be passed, whichever comes first. It
/// returns, since every loop has a bound. `NoMemory` is want of memory.
pub fn run(
    alloc: Global,
    program: &Program,
    costs: &Costs,
    input: &Input,
) -> Result<RunEnd, NoMemory>
    requires costs { AreCostsOf program.now costs.now }
    requires fits { IsTrue (spec.fits program.now input.now) }
    ensures end { IfOk result (λ e. e ≡ end_of_run costs.now (spec.run program.now input.now)) }
{
    program_is_well_formed(program);
    costs_of_runs_fit(program, costs);
    match program.funcs.get(program.entry as usize) {
        None => Ok(RunEnd::Undefined),
        Some(entry) => {
            let given = Given {
                alloc,
                program,
                costs,
            };
            run_entry(given, entry, start_of(alloc, program, entry, input)?)
        }
    }
}

// Runs the entry function of the program from this start.
fn run_entry(given: Given, entry: &Func, start: Start) -> Result<RunEnd, NoMemory>
    ensures { IfOk result (λ e. e ≡ entry_run_end given.entry entry.now start.arguments start.globals.items) }
{
    let program = given.program;
    let locals = entry_slots(
        given.alloc,
        entry.locals.as_slice(),
        start.arguments.as_slice(),
    )?;
    let memory = Memory::new(locals, start.globals);
    let mut machine = Machine::new(given.alloc, program.entry, memory);
    let first = Task::List {
        stmts: entry.body.as_slice(),
        at: 0,
        run: false,
    };
    machine.finish(given, first)
}
