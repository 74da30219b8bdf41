//! What each node of a plan does.

ghost use Rattle.std.specs.Prelude.{◌≡◌, ◌<◌, Option, Some, length, slice_get, option_map, IfOk};
ghost use Rattle.std.specs.Option.{option_copied};
ghost use Rattle.c_tree.specs.declared.program.BlockName as spec;
ghost use Rattle.flow_laws.specs.Graphs.{graph};
ghost use Rattle.flow_laws.specs.BlockLists.{
  block_at,
  block_content,
  bare_content,
  landing_content,
  call_content,
  result_of_func,
};
ghost use Rattle.node_contents.specs.Contents.{content_of, contents, what};
ghost use Rattle.flow_graph.specs.Landings.{calls};

use crate::block::{Block, Content};
use crate::gathering::blocks_of;
use c_tree::{BlockName, Expr, Func, NoMemory, Target, Ty};
use flow_graph::Plan;
use sqlite_items::Items;
use std::alloc::Global;
use std::marker::Model;

/// What each node of a plan does. It owns no statement: for each function it has a table from the number of a block to
/// its place in the plan's program.
#[derive(Drop)]
pub struct Contents<'p> {
    plan: &'p Plan,
    blocks: Items<Items<Block<'p>>>,
}

impl<'p> Model for Contents<'p> {
    ghost use Rattle.flow_graph.specs.Plans.{Planned};
    ghost use Rattle.node_contents.specs.Contents.{AreBlocks};
    ghost use Rattle.c_tree.specs.contracts.tree.Stmt as stmt;
    ghost use Rattle.c_tree.specs.contracts.tree.Expr as expr;
    ghost use Rattle.std.specs.Coded.{codes};

    ghost Value = { Planned };

    ghost coded = { Prim.hlevel (codes, stmt.the_row.coded, expr.the_row.coded) };

    ghost view = { λ c. c.plan.now };

    ghost invariant = { λ c. AreBlocks c.plan.now.program c.blocks };
}

/// What the nodes of the plan do; its time is linear in the program.
pub fn contents_of<'p>(alloc: Global, plan: &'p Plan) -> Result<Contents<'p>, NoMemory>
    ensures { IfOk result (λ c. c ≡ plan.now) }
{
    let blocks = blocks_of(alloc, plan.program().funcs.as_slice())?;
    Ok(Contents { plan, blocks })
}

impl<'p> Contents<'p> {
    /// What the node number `n` does. It takes constant time.
    pub fn of(&self, n: u32) -> Content<'p>
        requires { n < length (graph self.now.program) }
        ensures { slice_get (contents (graph self.now.program)) n ≡ Some (content_of result) }
    {
        // The program is well-formed.
        self.plan.program();
        match self.plan.node(n).block {
            Some(block) => self.of_block(block),
            None => self.of_bare(n),
        }
    }

    // The block of a name.
    fn block(&self, name: BlockName) -> Option<Block<'p>>
        ensures { option_map what result ≡ block_at self.now.program name }
    {
        let blocks = self.blocks.get(name.func as usize)?;
        blocks.get(name.number as usize).copied()
    }

    // The function of a number.
    fn func(&self, number: u32) -> Option<&'p Func>
        ensures { option_copied result ≡ slice_get self.now.program.funcs number }
    {
        self.plan.program().funcs.as_slice().get(number as usize)
    }

    // What a node with this block does.
    fn of_block(&self, name: BlockName) -> Content<'p>
        ensures { content_of result ≡ block_content self.now.program name.func (block_at self.now.program name) }
    {
        match self.block(name) {
            Some(Block::Run(statements)) => Content::Simple(statements),
            Some(Block::Ask(condition)) => Content::Test(condition),
            Some(Block::Jump) => Content::Jump,
            Some(Block::Give(value)) => Content::Give(value),
            Some(Block::Call(target, callee, given)) => {
                if callee < name.func {
                    self.entering(target, callee, given)
                } else {
                    Content::Missing
                }
            }
            None => Content::Missing,
        }
    }

    // The call of this function.
    fn entering(&self, target: Target, callee: u32, given: &'p [Expr]) -> Content<'p>
        ensures { content_of result ≡ call_content (slice_get self.now.program.funcs callee) target given.now }
    {
        match self.func(callee) {
            Some(func) => Content::Enter(target, func.locals.as_slice(), given),
            None => Content::Missing,
        }
    }

    // What a node without a block does.
    fn of_bare(&self, n: u32) -> Content<'p>
        requires { n < length (graph self.now.program) }
        ensures { (call : Option spec.BlockName) → slice_get (calls (graph self.now.program)) n ≡ Some call
            → content_of result ≡ bare_content self.now.program n call }
    {
        match n {
            0 => Content::Entry,
            1 => Content::Exit,
            _ => self.landing(self.plan.call(n)),
        }
    }

    // The landing of the call with this block.
    fn landing(&self, call: Option<BlockName>) -> Content<'p>
        ensures { content_of result ≡ landing_content self.now.program call }
    {
        let Some(name) = call else {
            return Content::Missing;
        };
        match self.block(name) {
            Some(Block::Call(target, callee, _)) => Content::Land(
                target,
                self.result(callee),
                name,
            ),
            _ => Content::Missing,
        }
    }

    // The type of a function's result.
    fn result(&self, number: u32) -> Option<Ty>
        ensures { result ≡ result_of_func (slice_get self.now.program.funcs number) }
    {
        match self.func(number) {
            Some(func) => func.result,
            None => None,
        }
    }
}
