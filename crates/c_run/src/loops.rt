//! Loops (C11 6.8.5).

ghost use Rattle.std.specs.Prelude.{◌≡◌, ◌<◌, ◌+◌, IfOk};
ghost use Rattle.c_tree.specs.Meaning.Statements.{held_stmts};
ghost use Rattle.c_run.specs.declared.machine.Given.{Given};
ghost use Rattle.c_run.specs.Machine.{loop_turns, remains, ComesTo, entering_loop, begun_for, resumed_outcome};
ghost use Rattle.c_run.specs.Work.{machine_work, work_left, begun_work, work_behind};

use crate::machine::{Given, Machine, Pending, Task};
use c_steps::condition;
use c_tree::{NoMemory, Stmt, Way};
use c_ways::{DoLoop, Loop, goes_on, past, plus, with_block};
use sqlite_items::Boxed;

impl<'a> Machine<'a> {
    /// A `while` or a `for` from its condition on.
    pub(crate) fn turn(&mut self, given: Given<'a>, turns: Loop<'a>) -> Result<Task<'a>, NoMemory>
        ensures same { IfOk result (λ t. remains given.entry self.new t ≡ remains given.entry self.old
            (Task.Turn turns.entry)) }
        ensures less { IfOk result (λ t. work_left given.entry self.new t < work_left given.entry self.old
            (Task.Turn turns.entry)) }
    {
        self.cost = with_block(self.cost, given.costs, self.func, turns.at);
        match condition(turns.condition, &self.memory) {
            None => Ok(Task::Undefined),
            Some(false) => Ok(Task::Ended(Way::Next)),
            Some(true) => self.enter_body(turns),
        }
    }

    // Enters the body of a loop once more, if its bound allows it.
    fn enter_body(&mut self, turns: Loop<'a>) -> Result<Task<'a>, NoMemory>
        ensures same { (g : Given)
            → IfOk result (λ t. ComesTo g self.old self.new t (entering_loop g self.old turns.entry)) }
        ensures less { (g : Given) → IfOk result (λ t. work_left g self.new t < work_left g self.old
            (Task.Turn turns.entry)) }
    {
        if turns.left == 0 {
            return Ok(Task::OverBound);
        }
        let left = turns.left - 1;
        self.wait(Pending::Step {
            func: self.func,
            turns: Loop { left, ..turns },
        })?;
        Ok(Task::List {
            stmts: turns.body,
            at: turns.body_at,
            run: false,
        })
    }

    /// A `do` from its body on.
    pub(crate) fn again(&mut self, turns: DoLoop<'a>) -> Result<Task<'a>, NoMemory>
        ensures same { (g : Given) → IfOk result (λ t. remains g self.new t
            ≡ remains g self.old (Task.Again turns.entry)) }
        ensures less { (g : Given) → IfOk result (λ t. work_left g self.new t < work_left g self.old
            (Task.Again turns.entry)) }
    {
        if turns.left == 0 {
            return Ok(Task::OverBound);
        }
        let left = turns.left - 1;
        self.wait(Pending::DoTest {
            func: self.func,
            turns: DoLoop { left, ..turns },
        })?;
        Ok(Task::List {
            stmts: turns.body,
            at: turns.body_at,
            run: false,
        })
    }

    /// A `for`: its initialiser, if it has one, and then its condition.
    pub(crate) fn begin(
        &mut self,
        initial: &'a Option<Boxed<Stmt>>,
        ahead: Loop<'a>,
        at: usize,
    ) -> Result<Task<'a>, NoMemory>
        ensures same { (g : Given)
            → IfOk result (λ t. ComesTo g self.old self.new t (begun_for g self.old (held_stmts initial.now) at
            ahead.entry)) }
        ensures less { (g : Given) → IfOk result (λ t. work_left g self.new t < begun_work g self.old
            (held_stmts initial.now) ahead.entry + machine_work g self.old) }
    {
        match initial {
            None => Ok(Task::Turn(ahead)),
            Some(stmt) => {
                self.wait(Pending::Turn {
                    func: self.func,
                    turns: ahead,
                })?;
                Ok(Task::One {
                    stmt: stmt.get(),
                    at,
                    run: false,
                })
            }
        }
    }

    /// What follows the body of a `while` or a `for` that ended in this way.
    pub(crate) fn step(&mut self, turns: Loop<'a>, way: Way) -> Result<Task<'a>, NoMemory>
        ensures same { (g : Given)
            → IfOk result (λ t. ComesTo g self.old self.new t
            (resumed_outcome g self.old (Pending.Step self.old.func turns.entry) way)) }
        ensures less { (g : Given) → IfOk result (λ t. work_left g self.new t < work_behind g
            (Pending.Step self.old.func turns.entry) + machine_work g self.old) }
    {
        if !goes_on(way) {
            return Ok(Task::Ended(past(way)));
        }
        match turns.step {
            None => Ok(Task::Turn(turns)),
            Some(stmt) => {
                self.wait(Pending::Turn {
                    func: self.func,
                    turns,
                })?;
                Ok(Task::One {
                    stmt,
                    at: plus(turns.at, 1)?,
                    run: false,
                })
            }
        }
    }

    /// What follows the body of a `do` that ended in this way.
    pub(crate) fn do_test(&mut self, given: Given<'a>, turns: DoLoop<'a>, way: Way) -> Task<'a>
        ensures same { ComesTo given.entry self.old self.new result (resumed_outcome given.entry self.old
            (Pending.DoTest self.old.func turns.entry) way) }
        ensures less { work_left given.entry self.new result < work_behind given.entry
            (Pending.DoTest self.old.func turns.entry) + machine_work given.entry self.old }
    {
        if !goes_on(way) {
            return Task::Ended(past(way));
        }
        self.cost = with_block(self.cost, given.costs, self.func, turns.at);
        match condition(turns.condition, &self.memory) {
            None => Task::Undefined,
            Some(false) => Task::Ended(Way::Next),
            Some(true) => Task::Again(turns),
        }
    }
}
