//! The blocks of a list of statements, in the order of their numbers.

ghost use Rattle.std.specs.Prelude.{◌≡◌, ◌++◌, ◌∷◌, [], false, map, IfOk};
ghost use Rattle.c_tree.specs.Meaning.Blocks.{is_simple};
ghost use Rattle.c_tree.specs.Meaning.Statements.{held_stmts};
ghost use Rattle.flow_laws.specs.BlockLists.{block_of_run, blocks_of_stmt, blocks_of_list, blocks_of_body};
ghost use Rattle.node_contents.specs.Contents.{what, what_of};

use crate::block::Block;
use c_semantics::is_simple;
use c_tree::{Func, NoMemory, Stmt};
use sqlite_items::{Boxed, Items};
use std::alloc::Global;
use std::slice;

/// The blocks of each function.
pub(crate) fn blocks_of<'p>(
    alloc: Global,
    funcs: &'p [Func],
) -> Result<Items<Items<Block<'p>>>, NoMemory>
    ensures { IfOk result (λ all. what_of all ≡ map blocks_of_body funcs.now) }
{
    let mut all = Items::new(alloc);
    for func in funcs {
        let mut blocks = Items::new(alloc);
        gather_list(func.body.as_slice(), &mut blocks)?;
        all.push(blocks)?;
    }
    Ok(all)
}

fn put<'p>(block: Block<'p>, out: &mut Items<Block<'p>>) -> Result<(), NoMemory>
    ensures { IfOk result (λ u. map what out.new ≡ map what out.old ++ what block.entry ∷ []) }
{
    out.push(block)?;
    Ok(())
}

// A run of simple statements, if it has one.
fn put_run<'p>(run: &'p [Stmt], out: &mut Items<Block<'p>>) -> Result<(), NoMemory>
    ensures { IfOk result (λ u. map what out.new ≡ map what out.old ++ block_of_run run.now) }
{
    if run.is_empty() {
        Ok(())
    } else {
        put(Block::Run(run), out)
    }
}

// The blocks of a list.
#[cycle(gather)]
fn gather_list<'p>(list: &'p [Stmt], out: &mut Items<Block<'p>>) -> Result<(), NoMemory>
    ensures { IfOk result (λ u. map what out.new ≡ map what out.old ++ blocks_of_list [] list.now) }
{
    let mut begun = 0;
    for at in 0..list.len() {
        let stmt = &list[at];
        if is_simple(stmt) {
            continue;
        }
        put_run(&list[begun..at], out)?;
        gather(stmt, out)?;
        begun = at + 1;
    }
    put_run(&list[begun..], out)
}

#[cycle(gather)]
fn gather_held<'p>(
    stmt: &'p Option<Boxed<Stmt>>,
    out: &mut Items<Block<'p>>,
) -> Result<(), NoMemory>
    ensures { IfOk result (λ u. map what out.new ≡ map what out.old ++ blocks_of_list [] (held_stmts stmt.now)) }
{
    match stmt {
        None => Ok(()),
        Some(stmt) => {
            let stmt = stmt.get();
            if is_simple(stmt) {
                put_run(slice::from_ref(stmt), out)
            } else {
                gather(stmt, out)
            }
        }
    }
}

// The blocks of a statement that is not simple.
#[cycle(gather)]
#[tactic(auto, using(crate::proofs::BlockLayers::block_layers))]
fn gather<'p>(stmt: &'p Stmt, out: &mut Items<Block<'p>>) -> Result<(), NoMemory>
    requires { is_simple stmt.now ≡ false }
    ensures { IfOk result (λ u. map what out.new ≡ map what out.old ++ blocks_of_stmt stmt.now) }
{
    match stmt {
        Stmt::Group(list) => gather_list(list.as_slice(), out),
        Stmt::Call(target, callee, given) => {
            put(Block::Call(*target, *callee, given.as_slice()), out)
        }
        Stmt::Break => put(Block::Jump, out),
        Stmt::Continue => put(Block::Jump, out),
        Stmt::Return(value) => put(Block::Give(value), out),
        Stmt::If(condition, first, second) => {
            put(Block::Ask(condition), out)?;
            gather_list(first.as_slice(), out)?;
            gather_list(second.as_slice(), out)?;
            Ok(())
        }
        Stmt::While(_, condition, body) => {
            put(Block::Ask(condition), out)?;
            gather_list(body.as_slice(), out)?;
            Ok(())
        }
        Stmt::Do(_, body, condition) => {
            gather_list(body.as_slice(), out)?;
            put(Block::Ask(condition), out)?;
            Ok(())
        }
        Stmt::For(_, first, condition, step, body) => {
            gather_held(first, out)?;
            put(Block::Ask(condition), out)?;
            gather_held(step, out)?;
            gather_list(body.as_slice(), out)?;
            Ok(())
        }
        Stmt::Empty | Stmt::Scalar(_, _) | Stmt::Array(_, _) | Stmt::Assign(_, _, _) => Ok(()),
    }
}
