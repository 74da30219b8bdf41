//! The tree of a program's part, calls inlined, from the pieces of its functions.

ghost use Rattle.std.specs.Prelude.{◌≡◌, ◌≤◌, ◌<◌, ◌^◌, ◌+◌, ◌∷◌, [], List, length, IfOk};
ghost use Rattle.peak_laws.specs.Parts as spec;
ghost use Rattle.peak_laws.specs.Magnitudes.{cap_cost};
ghost use Rattle.peak_laws.specs.ProgramParts as spec_program;
ghost use Rattle.ipet_peak.specs.declared.pieces.Piece.TheVariants as piece;
ghost use Rattle.ipet_peak.specs.Pieces.{
  last_part,
  earlier_parts,
  stack_after_piece,
  part_at,
  parts_made,
  MakeOneEach,
  stack_cost,
};
ghost use Rattle.ipet_peak.specs.Trees.{part_of, parts_of, KeepsWays, EachKeepsWays, IsTreeOf, Makes};

use crate::pieces::{Piece, function_pieces};
use crate::tree::{
    Tree, block_tree, body_tree, choice_tree, do_tree, no_tree, then_tree, while_tree,
};
use c_tree::{Costs, NoMemory, Program};
use sqlite_items::{Boxed, Items};
use std::alloc::Global;

#[tactic(auto, using(crate::proofs::TreeLayers::tree_layers))]
fn is_nothing(tree: &Tree) -> bool
    ensures { result ≡ spec_program.is_nothing (part_of tree.now) }
{
    match tree {
        Tree::Nothing => true,
        Tree::Block(_, _) => false,
        Tree::Then(_, _, _) => false,
        Tree::Choice(_, _, _, _) => false,
        Tree::While(_, _, _, _, _) => false,
        Tree::Do(_, _, _, _) => false,
        Tree::Body(_, _) => false,
    }
}

// Two trees, one after the other.
fn sequence(alloc: Global, a: Boxed<Tree>, b: Boxed<Tree>) -> Result<Boxed<Tree>, NoMemory>
    requires a { KeepsWays a }
    requires b { KeepsWays b }
    requires room { cap_cost (part_of a) + cap_cost (part_of b) ≤ 2 ^ 126 }
    ensures { IfOk result (λ t. IsTreeOf t (spec_program.sequence (part_of a) (part_of b))) }
{
    if is_nothing(a.get()) {
        return Ok(b);
    }
    if is_nothing(b.get()) {
        return Ok(a);
    }
    then_tree(alloc, a, b)
}

// The tree that was made last.
fn take_last(alloc: Global, trees: &mut Items<Boxed<Tree>>) -> Result<Boxed<Tree>, NoMemory>
    requires { EachKeepsWays trees.old }
    ensures last { IfOk result (λ t. IsTreeOf t (last_part (parts_of trees.old))) }
    ensures before { parts_of trees.new ≡ earlier_parts (parts_of trees.old) }
    ensures kept { EachKeepsWays trees.new }
{
    match trees.pop() {
        None => no_tree(alloc),
        Some(tree) => Ok(tree),
    }
}

// Two trees that were made last, one after the other.
fn join(alloc: Global, trees: &mut Items<Boxed<Tree>>) -> Result<Boxed<Tree>, NoMemory>
    requires kept { EachKeepsWays trees.old }
    requires room { stack_cost (stack_after_piece [] piece.Join (parts_of trees.old)) ≤ 2 ^ 126 }
    ensures { IfOk result (λ t. Makes t trees.new (stack_after_piece [] piece.Join (parts_of trees.old))) }
{
    let first = take_last(alloc, trees)?;
    let second = take_last(alloc, trees)?;
    sequence(alloc, first, second)
}

// A condition of the cost `c` with the two trees that were made last.
fn choose(alloc: Global, c: u64, trees: &mut Items<Boxed<Tree>>) -> Result<Boxed<Tree>, NoMemory>
    requires kept { EachKeepsWays trees.old }
    requires room { stack_cost (stack_after_piece [] (piece.Choice c) (parts_of trees.old)) ≤ 2 ^ 126 }
    ensures { IfOk result (λ t. Makes t trees.new (stack_after_piece [] (piece.Choice c) (parts_of trees.old))) }
{
    let first = take_last(alloc, trees)?;
    let second = take_last(alloc, trees)?;
    choice_tree(alloc, c, first, second)
}

// A loop with the tree that was made last as its body.
fn turn_while(
    alloc: Global,
    c: u64,
    m: u32,
    step: Option<u64>,
    trees: &mut Items<Boxed<Tree>>,
) -> Result<Boxed<Tree>, NoMemory>
    requires kept { EachKeepsWays trees.old }
    requires room { stack_cost (stack_after_piece [] (piece.While c m step) (parts_of trees.old)) ≤ 2 ^ 126 }
    ensures { IfOk result (λ t. Makes t trees.new (stack_after_piece [] (piece.While c m step) (parts_of trees.old))) }
{
    let body = take_last(alloc, trees)?;
    while_tree(alloc, c, m, step, body)
}

// The same of `do`.
fn turn_do(
    alloc: Global,
    c: u64,
    m: u32,
    trees: &mut Items<Boxed<Tree>>,
) -> Result<Boxed<Tree>, NoMemory>
    requires kept { EachKeepsWays trees.old }
    requires room { stack_cost (stack_after_piece [] (piece.Do c m) (parts_of trees.old)) ≤ 2 ^ 126 }
    ensures { IfOk result (λ t. Makes t trees.new (stack_after_piece [] (piece.Do c m) (parts_of trees.old))) }
{
    let body = take_last(alloc, trees)?;
    do_tree(alloc, c, m, body)
}

// The body of a callee, if it is above.
#[cycle(growing)]
fn callee_tree(alloc: Global, funcs: &[Items<Piece>], callee: u32) -> Result<Boxed<Tree>, NoMemory>
    requires one { MakeOneEach [] funcs.now }
    requires room { cap_cost (part_at (parts_made funcs.now) callee) ≤ 2 ^ 126 }
    ensures { IfOk result (λ t. IsTreeOf t (part_at (parts_made funcs.now) callee)) }
{
    if (callee as usize) < funcs.len() {
        func_tree(alloc, funcs, callee)
    } else {
        no_tree(alloc)
    }
}

// A call's copy of its callee's body.
#[cycle(growing)]
fn call(alloc: Global, funcs: &[Items<Piece>], callee: u32) -> Result<Boxed<Tree>, NoMemory>
    requires one { MakeOneEach [] funcs.now }
    requires room { cap_cost (part_at (parts_made funcs.now) callee) ≤ 2 ^ 126 }
    ensures { IfOk result (λ t. IsTreeOf t (spec.Body (part_at (parts_made funcs.now) callee))) }
{
    let body = callee_tree(alloc, funcs, callee)?;
    body_tree(alloc, body)
}

// Makes a tree of those that were made last, or of a callee.
#[cycle(growing)]
fn make(
    alloc: Global,
    funcs: &[Items<Piece>],
    piece: Piece,
    trees: &mut Items<Boxed<Tree>>,
) -> Result<Boxed<Tree>, NoMemory>
    requires one { MakeOneEach [] funcs.now }
    requires kept { EachKeepsWays trees.old }
    requires room { stack_cost (stack_after_piece (parts_made funcs.now) piece (parts_of trees.old)) ≤ 2 ^ 126 }
    ensures { IfOk result (λ t. Makes t trees.new (stack_after_piece (parts_made funcs.now) piece
        (parts_of trees.old))) }
{
    match piece {
        Piece::Nothing => no_tree(alloc),
        Piece::Block(c, leaving) => block_tree(alloc, c, leaving),
        Piece::Join => join(alloc, trees),
        Piece::Choice(c) => choose(alloc, c, trees),
        Piece::While(c, m, step) => turn_while(alloc, c, m, step, trees),
        Piece::Do(c, m) => turn_do(alloc, c, m, trees),
        Piece::Call(callee) => call(alloc, funcs, callee),
    }
}

/// The tree of the function number `func`. Its stack grows with the chain of calls, not with what stands between them.
#[cycle(growing)]
fn func_tree(alloc: Global, funcs: &[Items<Piece>], func: u32) -> Result<Boxed<Tree>, NoMemory>
    requires func { func < length funcs.now }
    requires one { MakeOneEach [] funcs.now }
    requires room { cap_cost (part_at (parts_made funcs.now) func) ≤ 2 ^ 126 }
    ensures { IfOk result (λ t. IsTreeOf t (part_at (parts_made funcs.now) func)) }
{
    let above = &funcs[..func as usize];
    let mut left = funcs[func as usize].as_slice();
    let mut trees = Items::new(alloc);
    'pieces: while let Some((piece, rest)) = left.split_last() {
        let tree = make(alloc, above, *piece, &mut trees)?;
        trees.push(tree)?;
        left = rest;
    }
    take_last(alloc, &mut trees)
}

/// The tree of a program's part. Each function's pieces are listed once.
pub(crate) fn program_tree(
    alloc: Global,
    program: &Program,
    costs: &Costs,
) -> Result<Boxed<Tree>, NoMemory>
    requires { cap_cost (spec_program.program_part program.now costs.now) ≤ 2 ^ 126 }
    ensures { IfOk result (λ t. IsTreeOf t (spec_program.program_part program.now costs.now)) }
{
    let funcs = function_pieces(alloc, program.funcs.as_slice(), costs)?;
    call(alloc, funcs.as_slice(), program.entry)
}
