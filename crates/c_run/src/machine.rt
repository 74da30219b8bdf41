//! Runs of statements (C11 6.8). What is left to do of the statements around the one at work stands in a list on the
//! heap, so nested calls and statements take no more stack.

ghost use Rattle.std.specs.Prelude.{◌≡◌, ◌<◌, true, [], IfOk, OnOk};
ghost use Rattle.c_run.specs.Machine.{Waits, is_work, remains};
ghost use Rattle.c_run.specs.Work.{work_left};

use crate::run_end::RunEnd;
use c_tree::{Costs, NoMemory, Program, Slot, Stmt, Target, Ty, Way};
use c_ways::{DoLoop, Loop, Memory};
use std::alloc::Global;

/// What a run is made of, and where it takes memory from.
#[derive(Clone, Copy)]
pub(crate) struct Given<'a> {
    pub(crate) alloc: Global,
    pub(crate) program: &'a Program,
    pub(crate) costs: &'a Costs,
}

/// What is to be done next in the function at work.
#[derive(Clone, Copy)]
pub(crate) enum Task<'a> {
    /// The statements of a list, whose first block is `at`, unless `run` tells that a run of simple ones goes on.
    List {
        stmts: &'a [Stmt],
        at: usize,
        run: bool,
    },
    /// One statement.
    One {
        stmt: &'a Stmt,
        at: usize,
        run: bool,
    },
    /// A `while` or a `for` from its condition on.
    Turn(Loop<'a>),
    /// A `do` from its body on.
    Again(DoLoop<'a>),
    /// Nothing: what was done ended in this way.
    Ended(Way),
    /// Nothing: what was done is undefined.
    Undefined,
    /// Nothing: a loop's bound was passed.
    OverBound,
}

/// What waits for the end of what is done, with the number of its function.
#[derive(Drop)]
pub(crate) enum Pending<'a> {
    /// The rest of a list.
    Rest {
        func: u32,
        stmts: &'a [Stmt],
        at: usize,
        run: bool,
    },
    /// The condition of a loop, behind its initialiser or its step.
    Turn {
        func: u32,
        turns: Loop<'a>,
    },
    /// What follows the body of a `while` or a `for`.
    Step {
        func: u32,
        turns: Loop<'a>,
    },
    /// The condition of a `do`.
    DoTest {
        func: u32,
        turns: DoLoop<'a>,
    },
    /// The caller: where the result goes, the caller's locals, and the result's type.
    Caller {
        func: u32,
        target: Target,
        locals: Vec<Slot>,
        result: Option<Ty>,
    },
}

/// The function at work by its number, the store, what waits (the innermost last), and the cost so far, modulo 2^128.
#[derive(Drop)]
pub(crate) struct Machine<'a> {
    pub(crate) func: u32,
    pub(crate) memory: Memory,
    pub(crate) pending: Vec<Pending<'a>>,
    pub(crate) cost: u128,
}

impl<'a> Machine<'a> {
    /// A machine at work in this function, for which nothing waits.
    pub(crate) fn new(alloc: Global, func: u32, memory: Memory) -> Machine<'a>
        ensures func { result.func ≡ func }
        ensures memory { result.memory ≡ memory }
        ensures pending { result.pending.items ≡ [] }
        ensures cost { result.cost ≡ 0 }
    {
        Machine {
            func,
            memory,
            pending: Vec::new(alloc),
            cost: 0,
        }
    }

    /// Has the statement at work wait.
    pub(crate) fn wait(&mut self, pending: Pending<'a>) -> Result<(), NoMemory>
        ensures { OnOk result (Waits self.old self.new pending.entry) }
    {
        match self.pending.push(pending) {
            Ok(()) => Ok(()),
            Err(_) => Err(NoMemory),
        }
    }

    // The cost so far.
    fn total(&self) -> u128
        ensures { result ≡ self.now.cost }
    {
        self.cost
    }

    // The task that comes next where this one is no end.
    fn work(&mut self, given: Given<'a>, task: Task<'a>) -> Result<Task<'a>, NoMemory>
        requires { is_work task ≡ true }
        ensures same { IfOk result (λ t. remains given.entry self.new t ≡ remains given.entry self.old task.entry) }
        ensures less { IfOk result (λ t. work_left given.entry self.new t < work_left given.entry self.old task.entry) }
    {
        match task {
            Task::List { stmts, at, run } => self.list(stmts, at, run),
            Task::One { stmt, at, run } => self.statement(given, stmt, at, run),
            Task::Turn(turns) => self.turn(given, turns),
            Task::Again(turns) => self.again(turns),
            // No end comes here.
            Task::Ended(_) | Task::Undefined | Task::OverBound => Ok(task),
        }
    }

    /// Does a task, and all that waits for it.
    pub(crate) fn finish(&mut self, given: Given<'a>, first: Task<'a>) -> Result<RunEnd, NoMemory>
        ensures { IfOk result (λ e. e ≡ remains given.entry self.old first.entry) }
    {
        let mut task = first;
        loop {
            match task {
                Task::Undefined => return Ok(RunEnd::Undefined),
                Task::OverBound => return Ok(RunEnd::OverBound),
                Task::Ended(way) => match self.pending.pop() {
                    None => return Ok(RunEnd::Ends { cost: self.total() }),
                    Some(pending) => task = self.resume(given, pending, way)?,
                },
                _ => task = self.work(given, task)?,
            }
        }
    }
}
