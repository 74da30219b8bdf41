//! How many nodes, block copies and edges a function has with its calls inlined. Sums that leave 64 bits stay at the
//! last number, so that a program whose calls inline without bound is measured in time linear in its text.

ghost use Rattle.std.specs.Prelude.{◌≡◌, IfOk, false, []};
ghost use Rattle.graph_lists.specs.Amounts.{
  capped_sum,
  amount,
  list_amount,
  held_amount,
  begun_amount,
  call_amount,
  amounts,
};

use c_semantics::is_simple;
use c_tree::{Func, NoMemory, Stmt};
use sqlite_items::{Boxed, Items};
use std::alloc::Global;

/// What a node with a condition counts, and what a landing does; each other one counts 1.
#[derive(Clone, Copy)]
pub struct Weights {
    pub test: u64,
    pub landing: u64,
}

/// The amount of each function, over those above it.
pub fn amounts(alloc: Global, funcs: &[Func], weights: Weights) -> Result<Items<u64>, NoMemory>
    ensures { IfOk result (λ sums. sums ≡ amounts weights [] funcs.now) }
{
    let mut sums = Items::new(alloc);
    for func in funcs {
        let sum = list_amount(func.body.as_slice(), weights, sums.as_slice());
        sums.push(sum)?;
    }
    Ok(sums)
}

fn begun_amount(run: bool) -> u64
    ensures { result ≡ begun_amount run }
{
    u64::from(!run)
}

// A call, its callee's copy and its landing.
fn call_amount(callee: u32, weights: Weights, above: &[u64]) -> u64
    ensures { result ≡ call_amount weights above.now callee }
{
    let sum = above.get(callee as usize).copied().unwrap_or(0);
    sum.saturating_add(1).saturating_add(weights.landing)
}

/// The amount of a list of statements over functions with these amounts.
#[cycle(amount)]
pub fn list_amount(list: &[Stmt], weights: Weights, above: &[u64]) -> u64
    ensures { result ≡ list_amount weights above.now list.now false }
{
    let mut sum: u64 = 0;
    let mut run = false;
    for stmt in list {
        sum = sum.saturating_add(stmt_amount(stmt, run, weights, above));
        run = is_simple(stmt);
    }
    sum
}

#[cycle(amount)]
fn held_amount(held: &Option<Boxed<Stmt>>, weights: Weights, above: &[u64]) -> u64
    ensures { result ≡ held_amount weights above.now held.now }
{
    match held {
        None => 0,
        Some(stmt) => stmt_amount(stmt.get(), false, weights, above),
    }
}

/// The amount of a statement; `run` tells that it goes on with a run of simple ones.
#[cycle(amount)]
#[tactic(auto, using(crate::proofs::AmountLayers::amount_layers))]
pub fn stmt_amount(stmt: &Stmt, run: bool, weights: Weights, above: &[u64]) -> u64
    ensures { result ≡ amount weights above.now stmt.now run }
{
    match stmt {
        Stmt::Empty | Stmt::Scalar(_, _) | Stmt::Array(_, _) | Stmt::Assign(_, _, _) => {
            begun_amount(run)
        }
        Stmt::Call(_, callee, _) => call_amount(*callee, weights, above),
        Stmt::Break | Stmt::Continue | Stmt::Return(_) => 1,
        Stmt::If(_, first, second) => {
            let first = list_amount(first.as_slice(), weights, above);
            let second = list_amount(second.as_slice(), weights, above);
            weights.test.saturating_add(first.saturating_add(second))
        }
        Stmt::While(_, _, body) => {
            let body = list_amount(body.as_slice(), weights, above);
            weights.test.saturating_add(body)
        }
        Stmt::Do(_, body, _) => {
            let body = list_amount(body.as_slice(), weights, above);
            weights.test.saturating_add(body)
        }
        Stmt::For(_, first, _, step, body) => {
            let first = held_amount(first, weights, above);
            let step = held_amount(step, weights, above);
            let body = list_amount(body.as_slice(), weights, above);
            let turn = weights.test.saturating_add(step.saturating_add(body));
            first.saturating_add(turn)
        }
        Stmt::Group(list) => list_amount(list.as_slice(), weights, above),
    }
}
