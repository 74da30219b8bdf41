//! The spans of functions, up to the greatest that is told apart.

ghost use Rattle.std.specs.Prelude.{◌≡◌, ◌+◌, ◌*◌, [], map, false, IfOk};
ghost use Rattle.c_tree.specs.Meaning.Statements.{held_stmts};
ghost use Rattle.c_tree.specs.Meaning.Spans.{span, list_span, span_at, begun_span, spans};
ghost use Rattle.c_spans.specs.Capped.{capped_span, capped_spans};

use c_semantics::is_simple;
use c_tree::{Func, NoMemory, Stmt};
use sqlite_items::Boxed;
use std::alloc::Global;

/// One more than the greatest span that a function may have, 2^64.
const CAP: u128 = 18_446_744_073_709_551_617;

// A number up to the cap.
#[tactic(auto, unfolding(crate::specs::Capped::capped_span))]
fn cut(n: u128) -> u128
    ensures { result ≡ capped_span n }
{
    n.min(CAP)
}

#[tactic(auto, unfolding(crate::specs::Capped::capped_span))]
fn sum(a: u128, b: u128) -> u128
    ensures { result ≡ capped_span (a + b) }
{
    a.saturating_add(b).min(CAP)
}

#[tactic(auto, unfolding(crate::specs::Capped::capped_span))]
fn product(a: u128, b: u128) -> u128
    ensures { result ≡ capped_span (a * b) }
{
    a.saturating_mul(b).min(CAP)
}

#[tactic(auto, using(crate::proofs::CappedSpans::capped_layers))]
fn begun(k: u128, run: bool) -> u128
    ensures { result ≡ capped_span (begun_span k run) }
{
    if run { 0 } else { cut(k) }
}

// A call in scale k: its block, and the span of a function above.
#[tactic(auto, using(crate::proofs::CappedSpans::capped_layers))]
fn call(above: &[u128], k: u128, callee: u32) -> u128
    ensures { result ≡ capped_span (k + k * span_at above.now callee) }
{
    match above.get(callee as usize) {
        Some(span) => sum(k, product(k, *span)),
        None => cut(k),
    }
}

#[cycle(spans)]
#[tactic(auto, using(crate::proofs::CappedSpans::capped_layers))]
fn list_span(above: &[u128], k: u128, stmts: &[Stmt]) -> u128
    ensures { result ≡ capped_span (list_span above.now k stmts.now false) }
{
    let mut total = 0;
    let mut run = false;
    for stmt in stmts {
        total = sum(total, span(above, k, stmt, run));
        run = is_simple(stmt);
    }
    total
}

#[cycle(spans)]
#[tactic(auto, using(crate::proofs::CappedSpans::capped_layers))]
fn held_span(above: &[u128], k: u128, stmt: &Option<Boxed<Stmt>>) -> u128
    ensures { result ≡ capped_span (list_span above.now k (held_stmts stmt.now) false) }
{
    match stmt {
        None => 0,
        Some(stmt) => span(above, k, stmt.get(), false),
    }
}

#[cycle(spans)]
#[tactic(auto, using(crate::proofs::CappedSpans::capped_layers))]
fn span(above: &[u128], k: u128, stmt: &Stmt, run: bool) -> u128
    ensures { result ≡ capped_span (span above.now k stmt.now run) }
{
    match stmt {
        Stmt::Empty => begun(k, run),
        Stmt::Scalar(_, _) => begun(k, run),
        Stmt::Array(_, _) => begun(k, run),
        Stmt::Assign(_, _, _) => begun(k, run),
        Stmt::Call(_, callee, _) => call(above, k, *callee),
        Stmt::Break => cut(k),
        Stmt::Continue => cut(k),
        Stmt::Return(_) => cut(k),
        Stmt::If(_, first, second) => {
            let first = list_span(above, k, first.as_slice());
            let second = list_span(above, k, second.as_slice());
            sum(sum(k, first), second)
        }
        Stmt::While(bound, _, body) => {
            let inside = product(k, u128::from(*bound));
            let body = list_span(above, inside, body.as_slice());
            sum(product(k, u128::from(*bound) + 1), body)
        }
        Stmt::Do(bound, body, _) => {
            let inside = product(k, u128::from(*bound));
            sum(list_span(above, inside, body.as_slice()), inside)
        }
        Stmt::For(bound, initial, _, step, body) => {
            let inside = product(k, u128::from(*bound));
            let initial = held_span(above, k, initial);
            let condition = product(k, u128::from(*bound) + 1);
            let step = held_span(above, inside, step);
            let body = list_span(above, inside, body.as_slice());
            sum(sum(sum(initial, condition), step), body)
        }
        Stmt::Group(body) => list_span(above, k, body.as_slice()),
    }
}

// The span of each function, over those above it.
fn capped_spans(alloc: Global, funcs: &[Func]) -> Result<Vec<u128>, NoMemory>
    ensures { IfOk result (λ v. v.items ≡ capped_spans [] funcs.now) }
{
    let mut above = Vec::new(alloc);
    for func in funcs {
        let span = list_span(&above, 1, func.body.as_slice());
        match above.push(span) {
            Ok(()) => {}
            Err(_) => return Err(NoMemory),
        }
    }
    Ok(above)
}

/// The span of each function, the sum of the scales of its blocks with calls inlined; 2^64 + 1 where it is above
/// 2^64. It fails for want of memory alone.
#[tactic(auto, using(crate::proofs::CappedSpans::spans_capped))]
pub fn function_spans(alloc: Global, funcs: &[Func]) -> Result<Vec<u128>, NoMemory>
    ensures { IfOk result (λ v. v.items ≡ map capped_span (spans [] funcs.now)) }
{
    capped_spans(alloc, funcs)
}
