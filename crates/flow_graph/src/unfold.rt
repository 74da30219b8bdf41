//! All nodes of a program: what a function's layout leaves to its callees is laid out in turn, by a list of what is
//! still to come. So the chains of calls need no stack.

ghost use Rattle.std.specs.Prelude.{◌≡◌, ◌<◌, ◌+◌, ◌^◌, ◌++◌, ◌∷◌, [], suc, length, slice_get, unwrap_or, IfOk};
ghost use Rattle.flow_laws.specs.Sites.{head};
ghost use Rattle.flow_laws.specs.Graphs.{copies, sites_of};
ghost use Rattle.graph_lists.specs.Amounts.{amounts};
ghost use Rattle.flow_graph.specs.Spots.{spots};
ghost use Rattle.flow_graph.specs.Layout.{
  each,
  HasRoom,
  body_spots,
  copy_spots,
  item_spots,
  laid_out,
  laid_back,
  outer_spot,
};

use crate::layout::{At, Item, Leads, Scope, emit_list};
use c_tree::{BlockName, Func, NoMemory};
use flow_laws::Node;
use graph_lists::{Ends, Spot};
use sqlite_items::Items;
use std::alloc::Global;

/// All nodes, in the order of their numbers, from the function number `entry` on; `sizes` has the size of each
/// function.
pub(crate) fn lay_out(
    alloc: Global,
    funcs: &[Func],
    sizes: &[u64],
    entry: u32,
) -> Result<Items<Spot>, NoMemory>
    requires sizes { sizes.now ≡ amounts each [] funcs.now }
    requires entry { entry < length funcs.now }
    requires room { HasRoom (slice_get (copies [] funcs.now) entry) 2 }
    ensures { IfOk result (λ out. out ≡ spots (sites_of (slice_get (copies [] funcs.now) entry))) }
{
    let mut out = Items::new(alloc);
    out.push(outermost(alloc, Ends::Once, first_node(sizes, entry)))?;
    out.push(outermost(alloc, Ends::Never, 1))?;
    let mut todo = Items::new(alloc);
    push_body(alloc, funcs, sizes, entry, &[], 1, 2, 1, &mut todo)?;
    'nodes: while let Some(item) = todo.pop() {
        step(alloc, funcs, sizes, item, &mut todo, &mut out)?;
    }
    Ok(out)
}

// Where Entry leads: to the function's first node, or to Exit.
fn first_node(sizes: &[u64], entry: u32) -> u32
    ensures { result ≡ head (unwrap_or (slice_get sizes.now entry) 0) 2 1 }
{
    if size_of(sizes, entry).unwrap_or(0) == 0 {
        1
    } else {
        2
    }
}

// A node of no block and no call, reached once.
fn outermost(alloc: Global, ends: Ends, to: u32) -> Spot
    ensures { result ≡ outer_spot ends to }
{
    let node = Node {
        block: None,
        chain: Items::new(alloc),
        cap: 1,
    };
    Spot {
        node,
        call: None,
        ends,
        yes: to,
        no: to,
    }
}

// What comes next: a node, or a call's node before its callee's copy.
fn step(
    alloc: Global,
    funcs: &[Func],
    sizes: &[u64],
    item: Item,
    todo: &mut Items<Item>,
    out: &mut Items<Spot>,
) -> Result<(), NoMemory>
    requires sizes { sizes.now ≡ amounts each [] funcs.now }
    ensures items { IfOk result (λ u. out.new ++ laid_back (copies [] funcs.now) todo.new ≡ out.old
        ++ (item_spots (copies [] funcs.now) item ++ laid_back (copies [] funcs.now) todo.old)) }
    ensures more { IfOk result (λ u. length out.new ≡ suc (length out.old)) }
{
    match item {
        Item::One(spot) => {
            out.push(spot)?;
            Ok(())
        }
        Item::Call(enter, block, callee, first) => {
            let mut chain = Items::from_slice(alloc, enter.node.chain.as_slice())?;
            chain.push(block)?;
            let scale = enter.node.cap;
            out.push(enter)?;
            push_copy(
                alloc,
                funcs,
                sizes,
                callee,
                chain.as_slice(),
                scale,
                first,
                todo,
            )
        }
    }
}

// A callee's copy, whose landing is the next node after it, to come next.
fn push_copy(
    alloc: Global,
    funcs: &[Func],
    sizes: &[u64],
    callee: u32,
    chain: &[BlockName],
    scale: u64,
    first: u32,
    todo: &mut Items<Item>,
) -> Result<(), NoMemory>
    requires sizes { sizes.now ≡ amounts each [] funcs.now }
    ensures { IfOk result (λ u. laid_back (copies [] funcs.now) todo.new
        ≡ copy_spots (slice_get (copies [] funcs.now) callee) chain.now scale first ++ laid_back (copies [] funcs.now)
        todo.old) }
{
    let Some(size) = size_of(sizes, callee) else {
        return Ok(());
    };
    let landing = size.saturating_add(u64::from(first));
    if landing < 4_294_967_296 {
        push_body(
            alloc,
            funcs,
            sizes,
            callee,
            chain,
            scale,
            first,
            landing as u32,
            todo,
        )
    } else {
        // Its nodes would have no numbers. No plan is so large.
        Ok(())
    }
}

fn size_of(sizes: &[u64], func: u32) -> Option<u64>
    ensures { result ≡ slice_get sizes.now func }
{
    sizes.get(func as usize).copied()
}

// A function's copy, to come next.
fn push_body(
    alloc: Global,
    funcs: &[Func],
    sizes: &[u64],
    func: u32,
    chain: &[BlockName],
    scale: u64,
    first: u32,
    landing: u32,
    todo: &mut Items<Item>,
) -> Result<(), NoMemory>
    requires sizes { sizes.now ≡ amounts each [] funcs.now }
    requires func { func < length funcs.now }
    requires room { HasRoom (slice_get (copies [] funcs.now) func) first }
    ensures { IfOk result (λ u. laid_back (copies [] funcs.now) todo.new
        ≡ body_spots (slice_get (copies [] funcs.now) func) chain.now scale first landing
        ++ laid_back (copies [] funcs.now) todo.old) }
{
    let scope = Scope {
        funcs,
        above: &sizes[..func as usize],
        chain,
        func,
    };
    let at = At {
        scale,
        block: 0,
        node: first,
    };
    let leads = Leads {
        next: landing,
        breaks: landing,
        continues: landing,
        returns: landing,
    };
    let mut items = Items::new(alloc);
    let body = funcs[func as usize].body.as_slice();
    emit_list(alloc, scope, body, at, leads, &mut items)?;
    push_back(funcs, items, todo)
}

// The items, the first of them to come next.
fn push_back(funcs: &[Func], items: Items<Item>, todo: &mut Items<Item>) -> Result<(), NoMemory>
    ensures { IfOk result (λ u. laid_back (copies [] funcs.now) todo.new ≡ laid_out (copies [] funcs.now) items
        ++ laid_back (copies [] funcs.now) todo.old) }
{
    let mut items = items;
    'items: while let Some(item) = items.pop() {
        todo.push(item)?;
    }
    Ok(())
}
