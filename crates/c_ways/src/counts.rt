//! How many blocks stand before what comes next. A number that passes `usize` stands for more statements than memory
//! holds, and is answered by want of memory.

ghost use Rattle.std.specs.Prelude.{◌≡◌, ◌+◌, false, IfOk};
ghost use Rattle.c_tree.specs.Meaning.Blocks as spec;
ghost use Rattle.c_tree.specs.Meaning.Statements.{held_stmts};

use c_semantics::is_simple;
use c_tree::{NoMemory, Stmt};
use sqlite_items::Boxed;
use std::slice;

/// The sum, or `NoMemory` where it passes `usize`.
pub fn plus(a: usize, b: usize) -> Result<usize, NoMemory>
    ensures { IfOk result (λ n. n ≡ a + b) }
{
    a.checked_add(b).ok_or(NoMemory)
}

/// How many blocks a list has.
pub fn list_blocks(list: &[Stmt]) -> Result<usize, NoMemory>
    ensures { IfOk result (λ n. n ≡ spec.list_blocks list.now false) }
{
    c_semantics::list_blocks(list).ok_or(NoMemory)
}

/// The same of one statement, of which `run` tells whether a simple one stands before it in its list.
#[tactic(auto, using(crate::proofs::OneStatement::going_on, crate::proofs::OneStatement::on_its_own))]
pub fn stmt_blocks(stmt: &Stmt, run: bool) -> Result<usize, NoMemory>
    ensures { IfOk result (λ n. n ≡ spec.blocks stmt.now run) }
{
    if run && is_simple(stmt) {
        return Ok(0);
    }
    list_blocks(slice::from_ref(stmt))
}

/// The same of an initialiser or a step of a `for`.
pub fn held_blocks(stmt: &Option<Boxed<Stmt>>) -> Result<usize, NoMemory>
    ensures { IfOk result (λ n. n ≡ spec.list_blocks (held_stmts stmt.now) false) }
{
    match stmt {
        None => Ok(0),
        Some(stmt) => list_blocks(slice::from_ref(stmt.get())),
    }
}
