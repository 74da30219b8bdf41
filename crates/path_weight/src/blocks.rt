//! The weight of a block, which is sought by its number along the statements of a function.

ghost use Rattle.std.specs.Prelude.{◌≡◌, [], ◌∷◌, false, nat_lt, if◌then◌else◌};
ghost use Rattle.c_tree.specs.Meaning.Blocks.{is_simple};
ghost use Rattle.c_tree.specs.Meaning.Statements.{held_stmts};
ghost use Rattle.flow_laws.specs.BlockLists.{Asks, Gives, Jumps, Calls};
ghost use Rattle.flow_laws.specs.BlockLists.{block_of_run, block_at, blocks_of_stmt, blocks_of_list};
ghost use Rattle.cond_laws.specs.Weights as spec;
ghost use Rattle.path_weight.specs.Capped.{capped_weight};
ghost use Rattle.path_weight.specs.Sought.{sought, block_part, copy_weight};

use crate::expressions::{expr_weight, list_weight, optional_weight};
use crate::scope::Scope;
use crate::statements::run_weight;
use c_semantics::is_simple;
use c_tree::{BlockName, Expr, Program, Stmt, Target};
use sqlite_items::Boxed;
use std::slice;

/// The weight of the block that was sought.
#[derive(Clone, Copy, Debug)]
pub(crate) struct Found {
    pub(crate) weight: u64,
}

// A run of simple statements, if it has one.
fn seek_run(scope: Scope, run: &[Stmt], left: u32) -> Result<u32, Found>
    ensures { result ≡ sought (block_part scope.entry.locals.now scope.entry.globals.now scope.entry.func)
        (block_of_run run.now) left }
{
    if run.is_empty() {
        return Ok(left);
    }
    match left.checked_sub(1) {
        Some(left) => Ok(left),
        None => Err(Found {
            weight: run_weight(scope, run),
        }),
    }
}

fn seek_condition(scope: Scope, e: &Expr, left: u32) -> Result<u32, Found>
    ensures { result ≡ sought (block_part scope.entry.locals.now scope.entry.globals.now scope.entry.func)
        (Asks e.now ∷ []) left }
{
    match left.checked_sub(1) {
        Some(left) => Ok(left),
        None => Err(Found {
            weight: expr_weight(scope, e),
        }),
    }
}

fn seek_return(scope: Scope, value: &Option<Expr>, left: u32) -> Result<u32, Found>
    ensures { result ≡ sought (block_part scope.entry.locals.now scope.entry.globals.now scope.entry.func)
        (Gives value.now ∷ []) left }
{
    match left.checked_sub(1) {
        Some(left) => Ok(left),
        None => Err(Found {
            weight: optional_weight(scope, value),
        }),
    }
}

fn seek_jump(scope: Scope, left: u32) -> Result<u32, Found>
    ensures { result ≡ sought (block_part scope.entry.locals.now scope.entry.globals.now scope.entry.func)
        (Jumps ∷ []) left }
{
    match left.checked_sub(1) {
        Some(left) => Ok(left),
        None => Err(Found { weight: 0 }),
    }
}

fn seek_call(
    scope: Scope,
    target: Target,
    callee: u32,
    given: &[Expr],
    left: u32,
) -> Result<u32, Found>
    ensures { result ≡ sought (block_part scope.entry.locals.now scope.entry.globals.now scope.entry.func)
        (Calls target callee given.now ∷ []) left }
{
    match left.checked_sub(1) {
        Some(left) => Ok(left),
        None => Err(Found {
            weight: call_weight(scope, callee, given),
        }),
    }
}

// The arguments of a call of a function above.
fn call_weight(scope: Scope, callee: u32, given: &[Expr]) -> u64
    ensures { result ≡ capped_weight
        (if nat_lt callee scope.entry.func
        then spec.list_weight scope.entry.locals.now scope.entry.globals.now given.now else 0) }
{
    if callee < scope.func {
        list_weight(scope, given)
    } else {
        0
    }
}

// The blocks of a list.
#[cycle(seek)]
fn seek_list(scope: Scope, list: &[Stmt], number: u32) -> Result<u32, Found>
    ensures { result ≡ sought (block_part scope.entry.locals.now scope.entry.globals.now scope.entry.func)
        (blocks_of_list [] list.now) number }
{
    let mut left = number;
    let mut begun = 0;
    for at in 0..list.len() {
        let stmt = &list[at];
        if is_simple(stmt) {
            continue;
        }
        left = seek_run(scope, &list[begun..at], left)?;
        left = seek(scope, stmt, left)?;
        begun = at + 1;
    }
    seek_run(scope, &list[begun..], left)
}

// The initialiser or the step of a `for`.
#[cycle(seek)]
fn seek_part(scope: Scope, part: &Option<Boxed<Stmt>>, left: u32) -> Result<u32, Found>
    ensures { result ≡ sought (block_part scope.entry.locals.now scope.entry.globals.now scope.entry.func)
        (blocks_of_list [] (held_stmts part.now)) left }
{
    match part {
        None => Ok(left),
        Some(stmt) => {
            let stmt = stmt.get();
            if is_simple(stmt) {
                seek_run(scope, slice::from_ref(stmt), left)
            } else {
                seek(scope, stmt, left)
            }
        }
    }
}

// The blocks of a statement that is not simple.
#[cycle(seek)]
#[tactic(auto, using(node_contents::proofs::BlockLayers::block_layers, crate::proofs::Seeking::seeking))]
fn seek(scope: Scope, stmt: &Stmt, left: u32) -> Result<u32, Found>
    requires { is_simple stmt.now ≡ false }
    ensures { result ≡ sought (block_part scope.entry.locals.now scope.entry.globals.now scope.entry.func)
        (blocks_of_stmt stmt.now) left }
{
    match stmt {
        Stmt::Group(list) => seek_list(scope, list.as_slice(), left),
        Stmt::Call(target, callee, given) => {
            seek_call(scope, *target, *callee, given.as_slice(), left)
        }
        Stmt::Break => seek_jump(scope, left),
        Stmt::Continue => seek_jump(scope, left),
        Stmt::Return(value) => seek_return(scope, value, left),
        Stmt::If(condition, first, second) => {
            let left = seek_condition(scope, condition, left)?;
            let left = seek_list(scope, first.as_slice(), left)?;
            seek_list(scope, second.as_slice(), left)
        }
        Stmt::While(_, condition, body) => {
            let left = seek_condition(scope, condition, left)?;
            seek_list(scope, body.as_slice(), left)
        }
        Stmt::Do(_, body, condition) => {
            let left = seek_list(scope, body.as_slice(), left)?;
            seek_condition(scope, condition, left)
        }
        Stmt::For(_, first, condition, step, body) => {
            let left = seek_part(scope, first, left)?;
            let left = seek_condition(scope, condition, left)?;
            let left = seek_part(scope, step, left)?;
            seek_list(scope, body.as_slice(), left)
        }
        Stmt::Empty | Stmt::Scalar(_, _) | Stmt::Array(_, _) | Stmt::Assign(_, _, _) => Ok(left),
    }
}

/// The weight of a copy of the block of this name.
pub(crate) fn block_weight(program: &Program, name: BlockName) -> u64
    ensures { result ≡ capped_weight (copy_weight program.now name.func (block_at program.now name)) }
{
    let Some(func) = program.funcs.get(name.func as usize) else {
        return 0;
    };
    let scope = Scope {
        func: name.func,
        locals: func.locals.as_slice(),
        globals: program.globals.as_slice(),
    };
    match seek_list(scope, func.body.as_slice(), name.number) {
        Err(found) => found.weight,
        Ok(_) => 0,
    }
}
