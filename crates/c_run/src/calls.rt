//! Calls (C11 6.5.2.2, 6.9.1), and what goes on behind the end of what was waited for.

ghost use Rattle.std.specs.Prelude.{◌≡◌, ◌<◌, ◌+◌, option_copied, slice_get, take, IfOk};
ghost use Rattle.c_tree.specs.Meaning.Statements.{give};
ghost use Rattle.c_run.specs.Machine as machine;
ghost use Rattle.c_run.specs.declared.machine.Given.{Given};
ghost use Rattle.c_run.specs.Machine.{remains, ends_as, ComesTo, call_stmt_outcome, call_outcome, resumed_outcome};
ghost use Rattle.c_run.specs.Work.{work_at, efforts, machine_work, work_left, callee_work, work_behind};

use crate::machine::{Given, Machine, Pending, Task};
use c_steps::all_values;
use c_tree::{Expr, Func, NoMemory, Program, Target, Value, Var, Way};
use c_ways::{entry_slots, returned, unset_target, with_block};

impl<'a> Machine<'a> {
    /// A call.
    pub(crate) fn call(
        &mut self,
        given: Given<'a>,
        target: Target,
        func: u32,
        arguments: &[Expr],
        at: usize,
    ) -> Result<Task<'a>, NoMemory>
        ensures same { IfOk result (λ t. ComesTo given.entry self.old self.new t (call_stmt_outcome given.entry
            self.old target func arguments.now at)) }
        ensures less { IfOk result (λ t. work_left given.entry self.new t < 2 + work_at (efforts given.entry self.old)
            func + machine_work given.entry self.old) }
    {
        self.cost = with_block(self.cost, given.costs, self.func, at);
        unset_target(target, &mut self.memory);
        let Some(callee) = function_above(given.program, func, self.func) else {
            return Ok(Task::Undefined);
        };
        let Some(values) = all_values(given.alloc, arguments, &self.memory)? else {
            return Ok(Task::Undefined);
        };
        self.enter(given, callee, func, target, values.as_slice())
    }

    // Enters a function.
    fn enter(
        &mut self,
        given: Given<'a>,
        callee: &'a Func,
        func: u32,
        target: Target,
        values: &[Value],
    ) -> Result<Task<'a>, NoMemory>
        ensures same { IfOk result (λ t. ComesTo given.entry self.old self.new t (call_outcome given.entry self.old
            target func callee.now values.now)) }
        ensures less { IfOk result (λ t. work_left given.entry self.new t < callee_work given.entry func callee.now
            + machine_work given.entry self.old) }
    {
        let locals = entry_slots(given.alloc, callee.locals.as_slice(), values)?;
        let locals = self.memory.replace_locals(locals);
        self.wait(Pending::Caller {
            func: self.func,
            target,
            locals,
            result: callee.result,
        })?;
        self.func = func;
        Ok(Task::List {
            stmts: callee.body.as_slice(),
            at: 0,
            run: false,
        })
    }

    /// Goes on behind what ended in this way.
    pub(crate) fn resume(
        &mut self,
        given: Given<'a>,
        pending: Pending<'a>,
        way: Way,
    ) -> Result<Task<'a>, NoMemory>
        ensures same { IfOk result (λ t. ComesTo given.entry self.old self.new t (resumed_outcome given.entry self.old
            pending.entry way)) }
        ensures less { IfOk result (λ t. work_left given.entry self.new t < work_behind given.entry pending.entry
            + machine_work given.entry self.old) }
    {
        match pending {
            Pending::Rest {
                func,
                stmts,
                at,
                run,
            } => {
                self.func = func;
                Ok(onward(way, Task::List { stmts, at, run }))
            }
            Pending::Turn { func, turns } => {
                self.func = func;
                Ok(onward(way, Task::Turn(turns)))
            }
            Pending::Step { func, turns } => {
                self.func = func;
                self.step(turns, way)
            }
            Pending::DoTest { func, turns } => {
                self.func = func;
                Ok(self.do_test(given, turns, way))
            }
            Pending::Caller {
                func,
                target,
                locals,
                result,
            } => {
                self.func = func;
                self.memory.replace_locals(locals);
                Ok(self.take_result(target, returned(result, way)))
            }
        }
    }

    // Puts a call's result where it goes.
    fn take_result(&mut self, target: Target, value: Option<Value>) -> Task<'a>
        ensures same { (g : Given) → remains g self.new result ≡ ends_as g self.old (give target value self.old.memory) }
        ensures less { (g : Given) → work_left g self.new result < 1 + machine_work g self.old }
    {
        match target {
            Target::Nothing => Task::Ended(Way::Next),
            Target::Assign(var) => self.assign(var, value),
            Target::Declare(local) => self.assign(Var::Local(local), value),
        }
    }

    // Assigns a call's result, which is undefined where there is none.
    fn assign(&mut self, var: Var, value: Option<Value>) -> Task<'a>
        ensures same { (g : Given) → remains g self.new result
            ≡ ends_as g self.old (give (Target.Assign var) value self.old.memory) }
        ensures less { (g : Given) → work_left g self.new result < 1 + machine_work g self.old }
    {
        match value {
            None => Task::Undefined,
            Some(v) => {
                self.memory.put_number(var, v);
                Task::Ended(Way::Next)
            }
        }
    }
}

// A function that stands above the function `below`.
fn function_above(program: &Program, func: u32, below: u32) -> Option<&Func>
    ensures { option_copied result ≡ slice_get (take below program.now.funcs) func }
{
    if func < below {
        program.funcs.get(func as usize)
    } else {
        None
    }
}

// The task, or the end itself where a statement did not end with what comes next.
fn onward<'a>(way: Way, task: Task<'a>) -> Task<'a>
    ensures { result ≡ machine.task_behind way task.entry }
{
    match way {
        Way::Next => task,
        _ => Task::Ended(way),
    }
}
