//! Which statements are simple, and how many blocks a list has.

ghost use Rattle.std.specs.Prelude.{◌≡◌, ◌+◌, ◌<◌, ◌^◌, false};
ghost use Rattle.std.specs.Option.{SomeIff};
ghost use Rattle.c_tree.specs.Meaning.Blocks.{is_simple, begun_blocks, blocks, list_blocks};
ghost use Rattle.c_tree.specs.Meaning.Statements.{held_stmts};

use c_tree::Stmt;
use sqlite_items::Boxed;

/// Whether a statement is simple: an empty one, a declaration without a call (C11 6.7), or an assignment (C11 6.5.16).
/// Simple statements that follow each other in a list are one block.
pub fn is_simple(stmt: &Stmt) -> bool
    ensures { result ≡ is_simple stmt.now }
{
    matches!(
        stmt,
        Stmt::Empty | Stmt::Scalar(..) | Stmt::Array(..) | Stmt::Assign(..)
    )
}

// How many blocks a simple statement begins.
fn begun(goes_on: bool) -> usize
    ensures { result ≡ begun_blocks goes_on }
{
    if goes_on { 0 } else { 1 }
}

// How many a `for` has: those of its initialiser, its condition, its step and its body.
fn for_blocks(initialiser: usize, step: usize, body: usize) -> Option<usize>
    ensures { SomeIff result (initialiser + 1 + step + body < 2 ^ 64) (initialiser + 1 + step + body) }
{
    initialiser
        .checked_add(1)?
        .checked_add(step)?
        .checked_add(body)
}

// How many blocks begin at a statement; `goes_on` tells that a simple statement stands before it in its list.
#[cycle(blocks)]
#[tactic(auto, using(c_tree::proofs::Layers::ExecLayers::exec_layers))]
fn blocks(stmt: &Stmt, goes_on: bool) -> Option<usize>
    ensures { SomeIff result (blocks stmt.now goes_on < 2 ^ 64) (blocks stmt.now goes_on) }
{
    match stmt {
        Stmt::Empty | Stmt::Scalar(_, _) | Stmt::Array(_, _) | Stmt::Assign(_, _, _) => {
            Some(begun(goes_on))
        }
        Stmt::Call(_, _, _) | Stmt::Break | Stmt::Continue | Stmt::Return(_) => Some(1),
        Stmt::If(_, first, second) => list_blocks(first.as_slice())?
            .checked_add(list_blocks(second.as_slice())?)?
            .checked_add(1),
        Stmt::While(_, _, body) => list_blocks(body.as_slice())?.checked_add(1),
        Stmt::Do(_, body, _) => list_blocks(body.as_slice())?.checked_add(1),
        Stmt::For(_, initialiser, _, step, body) => for_blocks(
            held_blocks(initialiser)?,
            held_blocks(step)?,
            list_blocks(body.as_slice())?,
        ),
        Stmt::Group(list) => list_blocks(list.as_slice()),
    }
}

// The same of an initialiser or a step.
#[cycle(blocks)]
fn held_blocks(stmt: &Option<Boxed<Stmt>>) -> Option<usize>
    ensures { SomeIff result (list_blocks (held_stmts stmt.now) false < 2 ^ 64) (list_blocks (held_stmts stmt.now)
        false) }
{
    match stmt {
        None => Some(0),
        Some(stmt) => blocks(stmt.get(), false),
    }
}

/// How many blocks a list of statements has (C11 6.8): runs of simple statements, controlling expressions,
/// initialisers and steps of a `for`, calls and jumps. None exactly where a `usize` does not hold the number.
#[cycle(blocks)]
pub fn list_blocks(list: &[Stmt]) -> Option<usize>
    ensures { SomeIff result (list_blocks list.now false < 2 ^ 64) (list_blocks list.now false) }
{
    let mut count = 0_usize;
    let mut goes_on = false;
    for stmt in list {
        count = count.checked_add(blocks(stmt, goes_on)?)?;
        goes_on = is_simple(stmt);
    }
    Some(count)
}
