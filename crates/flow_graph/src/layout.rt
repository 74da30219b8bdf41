//! The nodes of a function's copy, in the order of their numbers, where a call stands for its callee's copy.

ghost use Rattle.std.specs.Prelude.{◌≡◌, ◌<◌, ◌≤◌, ◌+◌, ◌*◌, ◌^◌, ◌++◌, ◌∷◌, [], List, IfOk, false, Some, slice_get};
ghost use Rattle.c_tree.specs.declared.tree.Target.{Target};
ghost use Rattle.c_tree.specs.declared.tree.Expr.{Expr};
ghost use Rattle.c_tree.specs.declared.tree.Stmt.TheVariants.{If, While, Do, For};
ghost use Rattle.c_tree.specs.Meaning.Blocks.{is_simple, blocks, list_blocks};
ghost use Rattle.c_tree.specs.Meaning.Statements.{block, held_stmts};
ghost use Rattle.flow_laws.specs.Sites.{head, site_count, list_size, flow, with_next, body_of, call_sites, call_size};
ghost use Rattle.flow_laws.specs.Graphs.{copies, all_to};
ghost use Rattle.graph_lists.specs.Amounts.{capped_amount};
ghost use Rattle.flow_graph.specs.Spots.{spots};
ghost use Rattle.flow_graph.specs.Layout.{
  AreSizes,
  copies_above,
  position_at,
  turn_between,
  lead_targets,
  spot_at,
  landing_at,
  pending_spots,
  past_run,
  list_spots,
  laid_out,
};

use c_semantics::is_simple;
use c_tree::{BlockName, Func, NoMemory, Stmt};
use flow_laws::Node;
use graph_lists::{Ends, Spot, Turn, Weights, list_amount, stmt_amount};
use sqlite_items::{Boxed, Items};
use std::alloc::Global;

/// Each node counts 1.
pub(crate) const EACH: Weights = Weights {
    test: 1,
    landing: 1,
};

/// The function number `func` of `funcs`, as it is copied for the calls of `chain`; `above` has the sizes of those
/// above it.
#[derive(Clone, Copy)]
pub(crate) struct Scope<'p> {
    pub funcs: &'p [Func],
    pub above: &'p [u64],
    pub chain: &'p [BlockName],
    pub func: u32,
}

/// How often a statement can be reached, and the numbers of its first block and of its first node.
#[derive(Clone, Copy)]
pub(crate) struct At {
    pub scale: u64,
    pub block: u32,
    pub node: u32,
}

/// Where a list of statements leads: by its end, `break`, `continue` and `return`.
#[derive(Clone, Copy)]
pub(crate) struct Leads {
    pub next: u32,
    pub breaks: u32,
    pub continues: u32,
    pub returns: u32,
}

/// A node; or the node of a call, its block, and the number of its callee with that of the first node of the callee's
/// copy, which comes next.
#[derive(Drop)]
pub(crate) enum Item {
    One(Spot),
    Call(Spot, BlockName, u32, u32),
}

// The first of `count` nodes from `first` on, or what is next where there are none.
fn head(count: u32, first: u32, next: u32) -> u32
    ensures { result ≡ head count first next }
{
    if count == 0 { next } else { first }
}

fn list_nodes(scope: Scope, list: &[Stmt]) -> u32
    requires known { AreSizes scope.funcs.now scope.above.now scope.func }
    requires room { list_size (copies_above scope.funcs.now scope.func) list.now false < 2 ^ 32 }
    ensures { result ≡ list_size (copies_above scope.entry.funcs.now scope.entry.func) list.now false }
{
    list_amount(list, EACH, scope.above) as u32
}

fn stmt_nodes(scope: Scope, stmt: &Stmt, run: bool) -> u32
    requires known { AreSizes scope.funcs.now scope.above.now scope.func }
    requires room { site_count (copies_above scope.funcs.now scope.func) stmt.now run < 2 ^ 32 }
    ensures { result ≡ site_count (copies_above scope.entry.funcs.now scope.entry.func) stmt.now run }
{
    stmt_amount(stmt, run, EACH, scope.above) as u32
}

// The node of the block at a place.
fn spot(
    alloc: Global,
    scope: Scope,
    at: At,
    ends: Ends,
    yes: u32,
    no: u32,
) -> Result<Spot, NoMemory>
    ensures { IfOk result (λ s. s ≡ spot_at (position_at scope.entry.func scope.entry.chain.now at.scale) at.block ends
        yes no) }
{
    let block = BlockName {
        func: scope.func,
        number: at.block,
    };
    let chain = Items::from_slice(alloc, scope.chain)?;
    let node = Node {
        block: Some(block),
        chain,
        cap: at.scale,
    };
    Ok(Spot {
        node,
        call: None,
        ends,
        yes,
        no,
    })
}

// The landing of the call with this block.
fn landing(
    alloc: Global,
    scope: Scope,
    call: Option<BlockName>,
    scale: u64,
    next: u32,
) -> Result<Spot, NoMemory>
    ensures { IfOk result (λ s. s ≡ landing_at (position_at scope.entry.func scope.entry.chain.now scale) call next) }
{
    let chain = Items::from_slice(alloc, scope.chain)?;
    let node = Node {
        block: None,
        chain,
        cap: scale,
    };
    Ok(Spot {
        node,
        call,
        ends: Ends::Once,
        yes: next,
        no: next,
    })
}

// Adds the node of the block at a place; the answer is the number of the next block.
fn put(
    alloc: Global,
    scope: Scope,
    at: At,
    ends: Ends,
    yes: u32,
    no: u32,
    out: &mut Items<Item>,
) -> Result<u32, NoMemory>
    requires { at.block + 1 < 2 ^ 32 }
    ensures block { IfOk result (λ b. b ≡ at.block + 1) }
    ensures items { IfOk result (λ b. laid_out (copies [] scope.entry.funcs.now) out.new
        ≡ laid_out (copies [] scope.entry.funcs.now) out.old
        ++ spot_at (position_at scope.entry.func scope.entry.chain.now at.scale) at.block ends yes no ∷ []) }
{
    let spot = spot(alloc, scope, at, ends, yes, no)?;
    out.push(Item::One(spot))?;
    Ok(at.block + 1)
}

fn held_nodes(scope: Scope, part: &Option<Boxed<Stmt>>) -> u32
    requires known { AreSizes scope.funcs.now scope.above.now scope.func }
    requires room { list_size (copies_above scope.funcs.now scope.func) (held_stmts part.now) false < 2 ^ 32 }
    ensures { result ≡ list_size (copies_above scope.entry.funcs.now scope.entry.func) (held_stmts part.now) false }
{
    match part {
        None => 0,
        Some(stmt) => stmt_nodes(scope, stmt.get(), false),
    }
}

fn place(scale: u64, block: u32, node: u32) -> At
    ensures scale { result.scale ≡ scale }
    ensures block { result.block ≡ block }
    ensures node { result.node ≡ node }
{
    At { scale, block, node }
}

fn turn(from: u32, past: u32, bound: u32, at_end: bool) -> Turn
    ensures { result ≡ turn_between from past bound at_end }
{
    Turn {
        from,
        past,
        bound,
        at_end,
    }
}

// How often the body of a loop is reached, whose place is reached `scale` times.
fn as_often(scale: u64, bound: u32) -> u64
    ensures { result ≡ capped_amount (scale * bound) }
{
    scale.saturating_mul(u64::from(bound))
}

// The same of the condition of `while` and `for`.
fn more_often(scale: u64, bound: u32) -> u64
    ensures { result ≡ capped_amount (scale * (bound + 1)) }
{
    scale.saturating_mul(u64::from(bound) + 1)
}

fn with_next(k: Leads, next: u32) -> Leads
    ensures { lead_targets result ≡ with_next (lead_targets k) next }
{
    Leads { next, ..k }
}

// Where the body of a loop leads: `break` to what is next after the loop, its end and `continue` to `next`.
fn inside(k: Leads, next: u32) -> Leads
    ensures { lead_targets result ≡ body_of (lead_targets k) next }
{
    Leads {
        next,
        breaks: k.next,
        continues: next,
        returns: k.returns,
    }
}

// The block of simple statements that is not laid out yet, if there is one.
fn put_pending(
    alloc: Global,
    scope: Scope,
    run: bool,
    at: At,
    next: u32,
    out: &mut Items<Item>,
) -> Result<u32, NoMemory>
    requires { past_run run at.block < 2 ^ 32 }
    ensures block { IfOk result (λ b. b ≡ past_run run at.block) }
    ensures items { IfOk result (λ b. laid_out (copies [] scope.entry.funcs.now) out.new
        ≡ laid_out (copies [] scope.entry.funcs.now) out.old
        ++ pending_spots (position_at scope.entry.func scope.entry.chain.now at.scale) run at.block next) }
{
    if run {
        put(alloc, scope, at, Ends::Once, next, next, out)
    } else {
        Ok(at.block)
    }
}

// The size of a function, if it is above.
fn size_above(above: &[u64], callee: u32) -> Option<u64>
    ensures { result ≡ slice_get above.now callee }
{
    above.get(callee as usize).copied()
}

// A call's node, its callee's copy and its landing.
fn put_call(
    alloc: Global,
    scope: Scope,
    callee: u32,
    at: At,
    next: u32,
    out: &mut Items<Item>,
) -> Result<u32, NoMemory>
    requires known { AreSizes scope.funcs.now scope.above.now scope.func }
    requires block { at.block + 1 < 2 ^ 32 }
    requires room { at.node + call_size (slice_get (copies_above scope.funcs.now scope.func) callee) < 2 ^ 32 }
    ensures block { IfOk result (λ b. b ≡ at.block + 1) }
    ensures items { IfOk result (λ b. (t : Target) (es : List Expr) → laid_out (copies [] scope.entry.funcs.now)
        out.new ≡ laid_out (copies [] scope.entry.funcs.now) out.old
        ++ spots (call_sites (position_at scope.entry.func scope.entry.chain.now at.scale)
        (slice_get (copies_above scope.entry.funcs.now scope.entry.func) callee) t es (block scope.entry.func at.block)
        at.node next)) }
{
    let first = at.node + 1;
    let Some(size) = size_above(scope.above, callee) else {
        put(alloc, scope, at, Ends::Once, first, first, out)?;
        let landing = landing(alloc, scope, None, at.scale, next)?;
        out.push(Item::One(landing))?;
        return Ok(at.block + 1);
    };
    let size = size as u32;
    let head = head(size, first, first + size);
    let block = BlockName {
        func: scope.func,
        number: at.block,
    };
    let enter = spot(alloc, scope, at, Ends::Once, head, head)?;
    out.push(Item::Call(enter, block, callee, first))?;
    let landing = landing(alloc, scope, Some(block), at.scale, next)?;
    out.push(Item::One(landing))?;
    Ok(at.block + 1)
}

/// The nodes of a list of statements, laid out at the end of `out`; the answer is the number of the block after them.
#[cycle(emit)]
pub(crate) fn emit_list(
    alloc: Global,
    scope: Scope,
    list: &[Stmt],
    at: At,
    k: Leads,
    out: &mut Items<Item>,
) -> Result<u32, NoMemory>
    requires known { AreSizes scope.funcs.now scope.above.now scope.func }
    requires blocks { at.block ≤ at.node }
    requires room { at.node + list_size (copies_above scope.funcs.now scope.func) list.now false < 2 ^ 32 }
    ensures block { IfOk result (λ b. b ≡ at.block + list_blocks list.now false) }
    ensures items { IfOk result (λ b. laid_out (copies [] scope.entry.funcs.now) out.new
        ≡ laid_out (copies [] scope.entry.funcs.now) out.old
        ++ list_spots (copies_above scope.entry.funcs.now scope.entry.func)
        (position_at scope.entry.func scope.entry.chain.now at.scale) list.now at.block at.node false (lead_targets k)) }
{
    let mut left = list_nodes(scope, list);
    let mut block = at.block;
    let mut node = at.node;
    let mut run = false;
    for stmt in list {
        let count = stmt_nodes(scope, stmt, run);
        left -= count;
        let here = At { block, node, ..at };
        if is_simple(stmt) {
            run = true;
        } else {
            let after = head(left, node + count, k.next);
            let block_after = put_pending(alloc, scope, run, here, head(count, node, after), out)?;
            let here = At {
                block: block_after,
                ..here
            };
            block = emit(alloc, scope, stmt, here, Leads { next: after, ..k }, out)?;
            run = false;
        }
        node += count;
    }
    put_pending(alloc, scope, run, At { block, node, ..at }, k.next, out)
}

// The initialiser or the step of a `for`.
#[cycle(emit)]
fn emit_held(
    alloc: Global,
    scope: Scope,
    part: &Option<Boxed<Stmt>>,
    at: At,
    k: Leads,
    out: &mut Items<Item>,
) -> Result<u32, NoMemory>
    requires known { AreSizes scope.funcs.now scope.above.now scope.func }
    requires blocks { at.block ≤ at.node }
    requires room { at.node + list_size (copies_above scope.funcs.now scope.func) (held_stmts part.now) false < 2 ^ 32 }
    ensures block { IfOk result (λ b. b ≡ at.block + list_blocks (held_stmts part.now) false) }
    ensures items { IfOk result (λ b. laid_out (copies [] scope.entry.funcs.now) out.new
        ≡ laid_out (copies [] scope.entry.funcs.now) out.old
        ++ list_spots (copies_above scope.entry.funcs.now scope.entry.func)
        (position_at scope.entry.func scope.entry.chain.now at.scale) (held_stmts part.now) at.block at.node false
        (lead_targets k)) }
{
    let Some(stmt) = part else {
        return Ok(at.block);
    };
    if is_simple(stmt.get()) {
        put(alloc, scope, at, Ends::Once, k.next, k.next, out)
    } else {
        emit(alloc, scope, stmt.get(), at, k, out)
    }
}

// A choice: its condition, and the statements of both ways.
#[cycle(emit)]
fn emit_if(
    alloc: Global,
    scope: Scope,
    first: &[Stmt],
    second: &[Stmt],
    at: At,
    k: Leads,
    out: &mut Items<Item>,
) -> Result<u32, NoMemory>
    requires known { AreSizes scope.funcs.now scope.above.now scope.func }
    requires blocks { at.block ≤ at.node }
    requires room { at.node + (1 + list_size (copies_above scope.funcs.now scope.func) first.now false
        + list_size (copies_above scope.funcs.now scope.func) second.now false) < 2 ^ 32 }
    ensures block { IfOk result (λ b. b ≡ at.block + (1 + list_blocks first.now false + list_blocks second.now false)) }
    ensures items { IfOk result (λ b. (e : Expr) → laid_out (copies [] scope.entry.funcs.now) out.new
        ≡ laid_out (copies [] scope.entry.funcs.now) out.old
        ++ spots (flow (copies_above scope.entry.funcs.now scope.entry.func)
        (position_at scope.entry.func scope.entry.chain.now at.scale) (If e first.now second.now) at.block at.node
        (lead_targets k))) }
{
    let count = list_nodes(scope, first);
    let other = at.node + 1 + count;
    let more = list_nodes(scope, second);
    let yes = head(count, at.node + 1, k.next);
    let no = head(more, other, k.next);
    let block = put(alloc, scope, at, Ends::Choice, yes, no, out)?;
    let inner = place(at.scale, block, at.node + 1);
    let block = emit_list(alloc, scope, first, inner, k, out)?;
    let inner = place(at.scale, block, other);
    emit_list(alloc, scope, second, inner, k, out)
}

// A `while`: its condition, and its body.
#[cycle(emit)]
fn emit_while(
    alloc: Global,
    scope: Scope,
    bound: u32,
    body: &[Stmt],
    at: At,
    k: Leads,
    out: &mut Items<Item>,
) -> Result<u32, NoMemory>
    requires known { AreSizes scope.funcs.now scope.above.now scope.func }
    requires blocks { at.block ≤ at.node }
    requires room { at.node + (1 + list_size (copies_above scope.funcs.now scope.func) body.now false) < 2 ^ 32 }
    ensures block { IfOk result (λ b. b ≡ at.block + (1 + list_blocks body.now false)) }
    ensures items { IfOk result (λ b. (e : Expr) → laid_out (copies [] scope.entry.funcs.now) out.new
        ≡ laid_out (copies [] scope.entry.funcs.now) out.old
        ++ spots (flow (copies_above scope.entry.funcs.now scope.entry.func)
        (position_at scope.entry.func scope.entry.chain.now at.scale) (While bound e body.now) at.block at.node
        (lead_targets k))) }
{
    let count = list_nodes(scope, body);
    let turn = turn(at.node, at.node + 1 + count, bound, false);
    let yes = head(count, at.node + 1, at.node);
    let test = place(more_often(at.scale, bound), at.block, at.node);
    let block = put(alloc, scope, test, Ends::Loop(turn), yes, k.next, out)?;
    let inner = place(as_often(at.scale, bound), block, at.node + 1);
    emit_list(alloc, scope, body, inner, inside(k, at.node), out)
}

// A `do`: its body, and its condition.
#[cycle(emit)]
fn emit_do(
    alloc: Global,
    scope: Scope,
    bound: u32,
    body: &[Stmt],
    at: At,
    k: Leads,
    out: &mut Items<Item>,
) -> Result<u32, NoMemory>
    requires known { AreSizes scope.funcs.now scope.above.now scope.func }
    requires blocks { at.block ≤ at.node }
    requires room { at.node + (list_size (copies_above scope.funcs.now scope.func) body.now false + 1) < 2 ^ 32 }
    ensures block { IfOk result (λ b. b ≡ at.block + (list_blocks body.now false + 1)) }
    ensures items { IfOk result (λ b. (e : Expr) → laid_out (copies [] scope.entry.funcs.now) out.new
        ≡ laid_out (copies [] scope.entry.funcs.now) out.old
        ++ spots (flow (copies_above scope.entry.funcs.now scope.entry.func)
        (position_at scope.entry.func scope.entry.chain.now at.scale) (Do bound body.now e) at.block at.node
        (lead_targets k))) }
{
    let test = at.node + list_nodes(scope, body);
    let scale = as_often(at.scale, bound);
    let turn = turn(at.node, test + 1, bound, true);
    let inner = place(scale, at.block, at.node);
    let block = emit_list(alloc, scope, body, inner, inside(k, test), out)?;
    let last = place(scale, block, test);
    put(alloc, scope, last, Ends::Loop(turn), at.node, k.next, out)
}

// A `for`: its initialiser, its condition, its step and its body.
#[cycle(emit)]
fn emit_for(
    alloc: Global,
    scope: Scope,
    bound: u32,
    first: &Option<Boxed<Stmt>>,
    step: &Option<Boxed<Stmt>>,
    body: &[Stmt],
    at: At,
    k: Leads,
    out: &mut Items<Item>,
) -> Result<u32, NoMemory>
    requires known { AreSizes scope.funcs.now scope.above.now scope.func }
    requires blocks { at.block ≤ at.node }
    requires room { at.node + (list_size (copies_above scope.funcs.now scope.func) (held_stmts first.now) false + 1
        + list_size (copies_above scope.funcs.now scope.func) (held_stmts step.now) false
        + list_size (copies_above scope.funcs.now scope.func) body.now false) < 2 ^ 32 }
    ensures block { IfOk result (λ b. b ≡ at.block + (list_blocks (held_stmts first.now) false + 1
        + list_blocks (held_stmts step.now) false + list_blocks body.now false)) }
    ensures items { IfOk result (λ b. (e : Expr) → laid_out (copies [] scope.entry.funcs.now) out.new
        ≡ laid_out (copies [] scope.entry.funcs.now) out.old
        ++ spots (flow (copies_above scope.entry.funcs.now scope.entry.func)
        (position_at scope.entry.func scope.entry.chain.now at.scale) (For bound first.now e step.now body.now)
        at.block at.node (lead_targets k))) }
{
    let test = at.node + held_nodes(scope, first);
    let between = held_nodes(scope, step);
    let after = test + 1 + between;
    let count = list_nodes(scope, body);
    let again = head(between, test + 1, test);
    let turn = turn(test, after + count, bound, false);
    let yes = head(count, after, again);
    let scale = as_often(at.scale, bound);
    let block = emit_held(alloc, scope, first, at, with_next(k, test), out)?;
    let asked = place(more_often(at.scale, bound), block, test);
    let block = put(alloc, scope, asked, Ends::Loop(turn), yes, k.next, out)?;
    let inner = place(scale, block, test + 1);
    let block = emit_held(alloc, scope, step, inner, with_next(k, test), out)?;
    let inner = place(scale, block, after);
    emit_list(alloc, scope, body, inner, inside(k, again), out)
}

// A statement that is not simple.
#[cycle(emit)]
#[tactic(auto, using(flow_laws::proofs::Graphs::FlowLayers::flow_layers, c_tree::proofs::Layers::ExecLayers::exec_layers))]
fn emit(
    alloc: Global,
    scope: Scope,
    stmt: &Stmt,
    at: At,
    k: Leads,
    out: &mut Items<Item>,
) -> Result<u32, NoMemory>
    requires known { AreSizes scope.funcs.now scope.above.now scope.func }
    requires plain { is_simple stmt.now ≡ false }
    requires blocks { at.block ≤ at.node }
    requires room { at.node + site_count (copies_above scope.funcs.now scope.func) stmt.now false < 2 ^ 32 }
    ensures block { IfOk result (λ b. b ≡ at.block + blocks stmt.now false) }
    ensures items { IfOk result (λ b. laid_out (copies [] scope.entry.funcs.now) out.new
        ≡ laid_out (copies [] scope.entry.funcs.now) out.old
        ++ spots (flow (copies_above scope.entry.funcs.now scope.entry.func)
        (position_at scope.entry.func scope.entry.chain.now at.scale) stmt.now at.block at.node (lead_targets k))) }
{
    match stmt {
        Stmt::Group(list) => emit_list(alloc, scope, list.as_slice(), at, k, out),
        Stmt::Call(_, callee, _) => put_call(alloc, scope, *callee, at, k.next, out),
        Stmt::Break => put(alloc, scope, at, Ends::Once, k.breaks, k.breaks, out),
        Stmt::Continue => put(alloc, scope, at, Ends::Once, k.continues, k.continues, out),
        Stmt::Return(_) => put(alloc, scope, at, Ends::Once, k.returns, k.returns, out),
        Stmt::If(_, yes, no) => emit_if(alloc, scope, yes.as_slice(), no.as_slice(), at, k, out),
        Stmt::While(bound, _, body) => {
            emit_while(alloc, scope, *bound, body.as_slice(), at, k, out)
        }
        Stmt::Do(bound, body, _) => emit_do(alloc, scope, *bound, body.as_slice(), at, k, out),
        Stmt::For(bound, first, _, step, body) => {
            let body = body.as_slice();
            emit_for(alloc, scope, *bound, first, step, body, at, k, out)
        }
        Stmt::Empty | Stmt::Scalar(_, _) | Stmt::Array(_, _) | Stmt::Assign(_, _, _) => {
            Ok(at.block)
        }
    }
}
