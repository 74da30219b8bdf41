//! The pieces of a function's part, in an order in which the part is made without a stack of calls: a piece before
//! those of the parts that it holds.

ghost use Rattle.std.specs.Prelude.{◌≡◌, ◌<◌, ◌+◌, ◌^◌, ◌∷◌, [], List, length, slice_get, IfOk, false, true};
ghost use Rattle.c_tree.specs.Meaning.Blocks.{is_simple, blocks, list_blocks};
ghost use Rattle.c_tree.specs.Meaning.Statements.{held_stmts};
ghost use Rattle.peak_laws.specs.Parts as spec;
ghost use Rattle.peak_laws.specs.ProgramParts as program;
ghost use Rattle.ipet_peak.specs.Pieces.{
  stack_after_piece,
  stack_after,
  Adds,
  Leads,
  IsVoid,
  parts_above,
  costs_after,
  parts_made,
  MakeOneEach,
};

use c_semantics::is_simple;
use c_tree::{Costs, Func, NoMemory, Stmt};
use peak_laws::Leaving;
use sqlite_items::{Boxed, Items};
use std::alloc::Global;
use std::slice;

/// A piece of a part: nothing; a node with one end; two parts, one after the other; a condition of two parts; a loop
/// with its condition, its step and its body; or a callee's body. Each node has its cost, and a loop its bound less
/// one.
#[derive(Clone, Copy, Debug, Drop)]
pub(crate) enum Piece {
    Nothing,
    Block(u64, Leaving),
    Join,
    Choice(u64),
    While(u64, u32, Option<u64>),
    Do(u64, u32),
    Call(u32),
}

/// The functions above one, and the costs of all.
#[derive(Clone, Copy)]
pub(crate) struct Scope<'p> {
    pub funcs: &'p [Func],
    pub costs: &'p Costs,
}

fn plus(a: usize, b: usize) -> Result<usize, NoMemory>
    ensures { IfOk result (λ n. n ≡ a + b) }
{
    a.checked_add(b).ok_or(NoMemory)
}

fn cost_of(scope: Scope, block: usize) -> u64
    ensures { result ≡ costs_after scope.entry.costs.now scope.entry.funcs.now block }
{
    let Some(row) = scope.costs.by_func.get(scope.funcs.len()) else {
        return 0;
    };
    let cost = row.as_slice().get(block).copied();
    u64::from(cost.unwrap_or(0))
}

fn put(piece: Piece, out: &mut Items<Piece>) -> Result<(), NoMemory>
    ensures { IfOk result (λ u. (qs ps : List spec.Part)
        → stack_after qs out.new ps ≡ stack_after qs out.old (stack_after_piece qs piece ps)) }
{
    out.push(piece)?;
    Ok(())
}

// The block of simple statements that is begun, if there is one, before what follows. What is empty has no piece.
fn put_pending(
    scope: Scope,
    run: bool,
    at: usize,
    out: &mut Items<Piece>,
) -> Result<usize, NoMemory>
    ensures block { IfOk result (λ b. b ≡ program.block_past_run run at) }
    ensures pieces { IfOk result (λ b. (qs : List spec.Part)
        → Leads qs out.old out.new (program.pending_block run (costs_after scope.entry.costs.now scope.entry.funcs.now
        at))) }
{
    if !run {
        return Ok(at);
    }
    put(Piece::Join, out)?;
    put_block(scope, at, Leaving::ByEnd, out)
}

// The same at the end of a list, which is one part.
fn put_last(scope: Scope, run: bool, at: usize, out: &mut Items<Piece>) -> Result<usize, NoMemory>
    ensures block { IfOk result (λ b. b ≡ program.block_past_run run at) }
    ensures pieces { IfOk result (λ b. (qs : List spec.Part)
        → Adds qs out.old out.new (program.pending_block run (costs_after scope.entry.costs.now scope.entry.funcs.now
        at))) }
{
    if run {
        put_block(scope, at, Leaving::ByEnd, out)
    } else {
        put(Piece::Nothing, out)?;
        Ok(at)
    }
}

// A block that leaves its list.
fn put_block(
    scope: Scope,
    at: usize,
    leaving: Leaving,
    out: &mut Items<Piece>,
) -> Result<usize, NoMemory>
    ensures block { IfOk result (λ b. b ≡ at + 1) }
    ensures pieces { IfOk result (λ b. (qs : List spec.Part)
        → Adds qs out.old out.new (spec.Block (costs_after scope.entry.costs.now scope.entry.funcs.now at) leaving)) }
{
    put(Piece::Block(cost_of(scope, at), leaving), out)?;
    plus(at, 1)
}

// A call's node, its callee's body and its landing.
fn put_call(scope: Scope, callee: u32, at: usize, out: &mut Items<Piece>) -> Result<usize, NoMemory>
    ensures block { IfOk result (λ b. b ≡ at + 1) }
    ensures pieces { IfOk result (λ b. Adds (parts_above scope.entry.costs.now scope.entry.funcs.now) out.old out.new
        (program.call_part (slice_get (parts_above scope.entry.costs.now scope.entry.funcs.now) callee)
        (costs_after scope.entry.costs.now scope.entry.funcs.now at))) }
{
    put(Piece::Join, out)?;
    let block = put_block(scope, at, Leaving::ByEnd, out)?;
    if (callee as usize) < scope.funcs.len() {
        put(Piece::Join, out)?;
        put(Piece::Call(callee), out)?;
    }
    put(Piece::Block(0, Leaving::ByEnd), out)?;
    Ok(block)
}

fn list_blocks(list: &[Stmt]) -> Result<usize, NoMemory>
    ensures { IfOk result (λ n. n ≡ list_blocks list.now false) }
{
    c_semantics::list_blocks(list).ok_or(NoMemory)
}

fn held_blocks(stmt: &Option<Boxed<Stmt>>) -> Result<usize, NoMemory>
    ensures { IfOk result (λ n. n ≡ list_blocks (held_stmts stmt.now) false) }
{
    match stmt {
        None => Ok(0),
        Some(stmt) => list_blocks(slice::from_ref(stmt.get())),
    }
}

// The step of a `for` is one block.
fn held_step(scope: Scope, step: &Option<Boxed<Stmt>>, at: usize) -> Option<u64>
    ensures { result ≡ program.step_part step.now (costs_after scope.entry.costs.now scope.entry.funcs.now at) }
{
    match step {
        None => None,
        Some(_) => Some(cost_of(scope, at)),
    }
}

// Whether the statement is a group of such groups, down to empty ones.
#[tactic(auto, using(crate::proofs::PartLayers::part_layers, c_tree::proofs::Layers::ExecLayers::exec_layers))]
fn is_void(stmt: &Stmt) -> bool
    ensures { result ≡ true → IsVoid stmt.now }
{
    let Stmt::Group(group) = stmt else {
        return false;
    };
    let list = group.as_slice();
    for inner in list {
        if !is_void(inner) {
            return false;
        }
    }
    true
}

/// Adds the pieces of a list, whose first block is `at`. The answer is the number of the block after it.
#[cycle(pieces)]
pub(crate) fn list_pieces(
    scope: Scope,
    list: &[Stmt],
    at: usize,
    out: &mut Items<Piece>,
) -> Result<usize, NoMemory>
    ensures block { IfOk result (λ b. b ≡ at + list_blocks list.now false) }
    ensures pieces { IfOk result (λ b. Adds (parts_above scope.entry.costs.now scope.entry.funcs.now) out.old out.new
        (program.list_part (parts_above scope.entry.costs.now scope.entry.funcs.now) (costs_after scope.entry.costs.now
        scope.entry.funcs.now) list.now at false)) }
{
    let mut block = at;
    let mut run = false;
    for stmt in list {
        if is_simple(stmt) {
            run = true;
        } else {
            let here = put_pending(scope, run, block, out)?;
            block = next_pieces(scope, stmt, here, out)?;
            run = false;
        }
    }
    put_last(scope, run, block, out)
}

// A statement that is not simple, before what follows it.
#[cycle(pieces)]
fn next_pieces(
    scope: Scope,
    stmt: &Stmt,
    at: usize,
    out: &mut Items<Piece>,
) -> Result<usize, NoMemory>
    requires { is_simple stmt.now ≡ false }
    ensures block { IfOk result (λ b. b ≡ at + blocks stmt.now false) }
    ensures pieces { IfOk result (λ b. Leads (parts_above scope.entry.costs.now scope.entry.funcs.now) out.old out.new
        (program.part (parts_above scope.entry.costs.now scope.entry.funcs.now) (costs_after scope.entry.costs.now
        scope.entry.funcs.now) stmt.now at)) }
{
    if is_void(stmt) {
        return Ok(at);
    }
    put(Piece::Join, out)?;
    stmt_pieces(scope, stmt, at, out)
}

// The initialiser of a `for`.
#[cycle(pieces)]
fn held_pieces(
    scope: Scope,
    part: &Option<Boxed<Stmt>>,
    at: usize,
    out: &mut Items<Piece>,
) -> Result<usize, NoMemory>
    ensures block { IfOk result (λ b. b ≡ at + list_blocks (held_stmts part.now) false) }
    ensures pieces { IfOk result (λ b. Adds (parts_above scope.entry.costs.now scope.entry.funcs.now) out.old out.new
        (program.list_part (parts_above scope.entry.costs.now scope.entry.funcs.now) (costs_after scope.entry.costs.now
        scope.entry.funcs.now) (held_stmts part.now) at false)) }
{
    match part {
        None => {
            put(Piece::Nothing, out)?;
            Ok(at)
        }
        Some(stmt) => {
            let stmt = stmt.get();
            if is_simple(stmt) {
                put_block(scope, at, Leaving::ByEnd, out)
            } else {
                stmt_pieces(scope, stmt, at, out)
            }
        }
    }
}

// A statement that is not simple.
#[cycle(pieces)]
#[tactic(auto, using(crate::proofs::PartLayers::part_layers, c_tree::proofs::Layers::ExecLayers::exec_layers))]
fn stmt_pieces(
    scope: Scope,
    stmt: &Stmt,
    at: usize,
    out: &mut Items<Piece>,
) -> Result<usize, NoMemory>
    requires { is_simple stmt.now ≡ false }
    ensures block { IfOk result (λ b. b ≡ at + blocks stmt.now false) }
    ensures pieces { IfOk result (λ b. Adds (parts_above scope.entry.costs.now scope.entry.funcs.now) out.old out.new
        (program.part (parts_above scope.entry.costs.now scope.entry.funcs.now) (costs_after scope.entry.costs.now
        scope.entry.funcs.now) stmt.now at)) }
{
    match stmt {
        Stmt::Group(list) => list_pieces(scope, list.as_slice(), at, out),
        Stmt::Call(_, callee, _) => put_call(scope, *callee, at, out),
        Stmt::Break => put_block(scope, at, Leaving::ByBreak, out),
        Stmt::Continue => put_block(scope, at, Leaving::ByContinue, out),
        Stmt::Return(_) => put_block(scope, at, Leaving::ByReturn, out),
        Stmt::If(_, yes, no) => {
            put(Piece::Choice(cost_of(scope, at)), out)?;
            let block = list_pieces(scope, yes.as_slice(), plus(at, 1)?, out)?;
            list_pieces(scope, no.as_slice(), block, out)
        }
        Stmt::While(bound, _, body) => {
            let spare = bound.saturating_sub(1);
            put(Piece::While(cost_of(scope, at), spare, None), out)?;
            list_pieces(scope, body.as_slice(), plus(at, 1)?, out)
        }
        Stmt::Do(bound, body, _) => {
            let test = plus(at, list_blocks(body.as_slice())?)?;
            let spare = bound.saturating_sub(1);
            put(Piece::Do(cost_of(scope, test), spare), out)?;
            let block = list_pieces(scope, body.as_slice(), at, out)?;
            plus(block, 1)
        }
        Stmt::For(bound, first, _, step, body) => {
            put(Piece::Join, out)?;
            let test = held_pieces(scope, first, at, out)?;
            let after = plus(test, 1)?;
            let spare = bound.saturating_sub(1);
            let each = held_step(scope, step, after);
            put(Piece::While(cost_of(scope, test), spare, each), out)?;
            let inner = plus(after, held_blocks(step)?)?;
            list_pieces(scope, body.as_slice(), inner, out)
        }
        Stmt::Empty | Stmt::Scalar(_, _) | Stmt::Array(_, _) | Stmt::Assign(_, _, _) => {
            put(Piece::Nothing, out)?;
            Ok(at)
        }
    }
}

// The pieces of one function.
fn pieces_of(alloc: Global, scope: Scope, body: &[Stmt]) -> Result<Items<Piece>, NoMemory>
    ensures { IfOk result (λ xs. (ps : List spec.Part)
        → stack_after (parts_above scope.entry.costs.now scope.entry.funcs.now) xs ps
        ≡ program.list_part (parts_above scope.entry.costs.now scope.entry.funcs.now)
        (costs_after scope.entry.costs.now scope.entry.funcs.now) body.now 0 false ∷ ps) }
{
    let mut pieces = Items::new(alloc);
    list_pieces(scope, body, 0, &mut pieces)?;
    Ok(pieces)
}

/// The pieces of each function, in order.
pub(crate) fn function_pieces(
    alloc: Global,
    funcs: &[Func],
    costs: &Costs,
) -> Result<Items<Items<Piece>>, NoMemory>
    ensures parts { IfOk result (λ xss. parts_made xss ≡ parts_above costs.now funcs.now) }
    ensures one { IfOk result (λ xss. MakeOneEach [] xss) }
{
    let mut all = Items::new(alloc);
    for func in 0..funcs.len() {
        let scope = Scope {
            funcs: &funcs[..func],
            costs,
        };
        all.push(pieces_of(alloc, scope, funcs[func].body.as_slice())?)?;
    }
    Ok(all)
}
