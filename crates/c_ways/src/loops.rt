//! Loops as their runs see them (C11 6.8.5).

ghost use Rattle.std.specs.Prelude.{◌≡◌, ◌+◌, false, None, option_copied, IfOk};
ghost use Rattle.c_tree.specs.Meaning.Blocks.{list_blocks};
ghost use Rattle.c_tree.specs.Meaning.Statements.{held_stmts};

use crate::counts::{held_blocks, list_blocks, plus};
use c_tree::{Expr, NoMemory, Stmt};
use sqlite_items::Boxed;

/// A `while` or a `for`, whose body may be entered `left` more times. `at` is the block of its condition, behind which
/// comes that of its step; `body_at` is the first of its body.
#[derive(Clone, Copy)]
pub struct Loop<'a> {
    pub condition: &'a Expr,
    pub step: Option<&'a Stmt>,
    pub body: &'a [Stmt],
    pub at: usize,
    pub body_at: usize,
    pub left: u32,
}

/// A `do`, whose body may be entered `left` more times. `body_at` is the first block of its body, and `at` that of its
/// condition.
#[derive(Clone, Copy)]
pub struct DoLoop<'a> {
    pub condition: &'a Expr,
    pub body: &'a [Stmt],
    pub at: usize,
    pub body_at: usize,
    pub left: u32,
}

/// A `while` whose condition is the block `at`.
pub fn while_loop<'a>(
    bound: u32,
    condition: &'a Expr,
    body: &'a [Stmt],
    at: usize,
) -> Result<Loop<'a>, NoMemory>
    ensures { IfOk result (λ l. l ≡ record {
      condition = condition.entry;
      step = None;
      body = body.entry;
      at = at;
      body_at = at + 1;
      left = bound;
    }) }
{
    Ok(Loop {
        condition,
        step: None,
        body,
        at,
        body_at: plus(at, 1)?,
        left: bound,
    })
}

/// A `do` whose body begins at the block `at`.
pub fn do_loop<'a>(
    bound: u32,
    body: &'a [Stmt],
    condition: &'a Expr,
    at: usize,
) -> Result<DoLoop<'a>, NoMemory>
    ensures { IfOk result (λ l. l ≡ record {
      condition = condition.entry;
      body = body.entry;
      at = at
          + list_blocks body.now false;
      body_at = at;
      left = bound;
    }) }
{
    Ok(DoLoop {
        condition,
        body,
        at: plus(at, list_blocks(body)?)?,
        body_at: at,
        left: bound,
    })
}

/// A `for` whose condition is the block `at`.
pub fn for_loop<'a>(
    bound: u32,
    condition: &'a Expr,
    step: &'a Option<Boxed<Stmt>>,
    body: &'a [Stmt],
    at: usize,
) -> Result<Loop<'a>, NoMemory>
    ensures condition { IfOk result (λ l. l.condition ≡ condition.entry) }
    ensures step { IfOk result (λ l. option_copied l.step ≡ step.now) }
    ensures body { IfOk result (λ l. l.body ≡ body.entry) }
    ensures at { IfOk result (λ l. l.at ≡ at) }
    ensures body_at { IfOk result (λ l. l.body_at ≡ at + 1 + list_blocks (held_stmts step.now) false) }
    ensures left { IfOk result (λ l. l.left ≡ bound) }
{
    let body_at = plus(plus(at, 1)?, held_blocks(step)?)?;
    Ok(Loop {
        condition,
        step: inner(step),
        body,
        at,
        body_at,
        left: bound,
    })
}

// The statement that stands there, if there is one.
fn inner(stmt: &Option<Boxed<Stmt>>) -> Option<&Stmt>
    ensures { option_copied result ≡ stmt.now }
{
    match stmt {
        None => None,
        Some(stmt) => Some(stmt.get()),
    }
}
