//! Statements that are no loops and no calls (C11 6.8.2, 6.8.4, 6.8.6), and what a statement of each kind begins with.

ghost use Rattle.std.specs.Prelude.{◌≡◌, ◌<◌, ◌+◌, [], ◌∷◌, IfOk};
ghost use Rattle.c_tree.specs.Meaning.Statements.{Ends, after, return_value, block};
ghost use Rattle.c_run.specs.declared.machine.Given.{Given};
ghost use Rattle.c_run.specs.Machine.{remains, ComesTo, simple_from, chosen_list};
ghost use Rattle.c_run.specs.Work.{machine_work, work_left, choice_work};

use crate::machine::{Given, Machine, Pending, Task};
use c_semantics::is_simple;
use c_steps::{condition, simple, value};
use c_tree::{Expr, NoMemory, Stmt, Way};
use c_ways::{
    do_loop, for_loop, held_blocks, list_blocks, plus, stmt_blocks, while_loop, with_block,
    with_run,
};

impl<'a> Machine<'a> {
    /// A list of statements.
    pub(crate) fn list(
        &mut self,
        stmts: &'a [Stmt],
        at: usize,
        run: bool,
    ) -> Result<Task<'a>, NoMemory>
        ensures same { (g : Given) → IfOk result (λ t. remains g self.new t
            ≡ remains g self.old (Task.List stmts.entry at run)) }
        ensures less { (g : Given) → IfOk result (λ t. work_left g self.new t < work_left g self.old
            (Task.List stmts.entry at run)) }
    {
        let Some((stmt, rest)) = stmts.split_first() else {
            return Ok(Task::Ended(Way::Next));
        };
        self.wait(Pending::Rest {
            func: self.func,
            stmts: rest,
            at: plus(at, stmt_blocks(stmt, run)?)?,
            run: is_simple(stmt),
        })?;
        Ok(Task::One { stmt, at, run })
    }

    /// One statement.
    pub(crate) fn statement(
        &mut self,
        given: Given<'a>,
        stmt: &'a Stmt,
        at: usize,
        run: bool,
    ) -> Result<Task<'a>, NoMemory>
        ensures same { IfOk result (λ t. remains given.entry self.new t ≡ remains given.entry self.old
            (Task.One stmt.entry at run)) }
        ensures less { IfOk result (λ t. work_left given.entry self.new t < work_left given.entry self.old
            (Task.One stmt.entry at run)) }
    {
        match stmt {
            Stmt::Empty => self.plain(given, stmt, at, run),
            Stmt::Scalar(..) => self.plain(given, stmt, at, run),
            Stmt::Array(..) => self.plain(given, stmt, at, run),
            Stmt::Assign(..) => self.plain(given, stmt, at, run),
            Stmt::Call(target, func, arguments) => {
                self.call(given, *target, *func, arguments.as_slice(), at)
            }
            Stmt::Break => Ok(self.jump(given, at, Way::Break)),
            Stmt::Continue => Ok(self.jump(given, at, Way::Continue)),
            Stmt::Return(e) => Ok(self.leave(given, e, at)),
            Stmt::If(e, xs, ys) => self.choose(given, e, xs.as_slice(), ys.as_slice(), at),
            Stmt::While(bound, e, xs) => {
                let turns = while_loop(*bound, e, xs.as_slice(), at)?;
                Ok(Task::Turn(turns))
            }
            Stmt::Do(bound, xs, e) => {
                let turns = do_loop(*bound, xs.as_slice(), e, at)?;
                Ok(Task::Again(turns))
            }
            Stmt::For(bound, i, e, j, xs) => {
                let condition = plus(at, held_blocks(i)?)?;
                let turns = for_loop(*bound, e, j, xs.as_slice(), condition)?;
                self.begin(i, turns, at)
            }
            Stmt::Group(xs) => Ok(Task::List {
                stmts: xs.as_slice(),
                at,
                run: false,
            }),
        }
    }

    // A simple statement.
    fn plain(
        &mut self,
        given: Given<'a>,
        stmt: &Stmt,
        at: usize,
        run: bool,
    ) -> Result<Task<'a>, NoMemory>
        ensures same { IfOk result (λ t. ComesTo given.entry self.old self.new t (simple_from self.old stmt.now at
            run)) }
        ensures less { IfOk result (λ t. work_left given.entry self.new t < 1 + machine_work given.entry self.old) }
    {
        self.cost = with_run(self.cost, given.costs, self.func, at, run);
        if simple(given.alloc, stmt, &mut self.memory)? {
            Ok(Task::Ended(Way::Next))
        } else {
            Ok(Task::Undefined)
        }
    }

    // A `break` or a `continue`.
    fn jump(&mut self, given: Given<'a>, at: usize, way: Way) -> Task<'a>
        ensures same { ComesTo given.entry self.old self.new result (Ends (block self.old.func at ∷ []) self.old.memory
            way) }
        ensures less { work_left given.entry self.new result < 1 + machine_work given.entry self.old }
    {
        self.cost = with_block(self.cost, given.costs, self.func, at);
        Task::Ended(way)
    }

    // A `return`.
    fn leave(&mut self, given: Given<'a>, e: &Option<Expr>, at: usize) -> Task<'a>
        ensures same { ComesTo given.entry self.old self.new result (after (block self.old.func at ∷ [])
            (return_value e.now self.old.memory)) }
        ensures less { work_left given.entry self.new result < 1 + machine_work given.entry self.old }
    {
        self.cost = with_block(self.cost, given.costs, self.func, at);
        match e {
            None => Task::Ended(Way::Return(None)),
            Some(e) => match value(e, &self.memory) {
                None => Task::Undefined,
                Some(v) => Task::Ended(Way::Return(Some(v))),
            },
        }
    }

    // An `if`.
    fn choose(
        &mut self,
        given: Given<'a>,
        e: &Expr,
        first: &'a [Stmt],
        second: &'a [Stmt],
        at: usize,
    ) -> Result<Task<'a>, NoMemory>
        ensures same { IfOk result (λ t. ComesTo given.entry self.old self.new t (chosen_list given.entry self.old
            e.now first.now second.now at)) }
        ensures less { IfOk result (λ t. work_left given.entry self.new t < choice_work given.entry self.old first.now
            second.now + machine_work given.entry self.old) }
    {
        self.cost = with_block(self.cost, given.costs, self.func, at);
        match condition(e, &self.memory) {
            None => Ok(Task::Undefined),
            Some(true) => Ok(Task::List {
                stmts: first,
                at: plus(at, 1)?,
                run: false,
            }),
            Some(false) => Ok(Task::List {
                stmts: second,
                at: plus(plus(at, 1)?, list_blocks(first)?)?,
                run: false,
            }),
        }
    }
}
