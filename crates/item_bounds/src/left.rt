//! The box of counts that an item leaves.

ghost use Rattle.std.specs.Prelude.{◌≡◌, ℕ, List, length, IfOk, IfSome, IfNone};
ghost use Rattle.flow_laws.specs.Graphs.{graph, edges};
ghost use Rattle.lin_rows.specs.Meeting.{Meets};
ghost use Rattle.lin_rows.specs.Vectors.{IsInBox};
ghost use Rattle.count_box.specs.Narrowing.{HasNone, Narrows};
ghost use Rattle.race_item.specs.Facts.{IsAtLeast};
ghost use Rattle.race_item.specs.Lists.{EachOf};
ghost use Rattle.race_item.specs.Regions.{IsWithin};
ghost use Rattle.item_bounds.specs.Left.{HasLeast, HasMost, HoldsLeft, LeavesNone};

use crate::counting::counts_of;
use c_tree::NoMemory;
use count_box::{Tight, tighten};
use ipet_rows::{SoundRows, caps_box};
use lin_rows::{CountBox, Rows};
use race_item::Cut;
use std::alloc::Global;

/// How often a box is narrowed by all rows at most.
const TIMES: u32 = 3;

/// A box of counts that has each vector which lies between 0 and the caps and within the cuts, is at least the counts
/// of the prefix and meets the rows; or `None`, and then there is no such vector. `NoMemory` is want of memory.
///
/// The time grows with the edges, the prefix, and a few steps for each term of the rows.
pub fn counts_left(
    alloc: Global,
    rows: &SoundRows,
    cuts: &[Cut],
    prefix: &[u16],
) -> Result<Option<CountBox>, NoMemory>
    ensures some { IfOk result (λ o. IfSome o (λ within. HoldsLeft rows.now cuts.now prefix.now within)) }
    ensures limits { IfOk result (λ o. IfSome o (λ within. length within.limits
        ≡ length (edges (graph rows.now.plan.program)))) }
    ensures none { IfOk result (λ o. IfNone o (LeavesNone rows.now cuts.now prefix.now)) }
{
    let counts = counts_of(alloc, rows.plan(), prefix)?;
    let mut within = caps_box(alloc, rows.plan())?;
    match narrowed(rows.rows(), &mut within, cuts, counts.as_slice()) {
        Tight::Narrowed => Ok(Some(within)),
        Tight::Empty => Ok(None),
    }
}

// Narrows the box by the cuts, to counts that are at least these, and by the rows.
fn narrowed(rows: &Rows, within: &mut CountBox, cuts: &[Cut], least: &[u64]) -> Tight
    requires { length within.old.limits ≡ rows.now.edges }
    ensures narrowed { result ≡ Tight.Narrowed → Narrows (λ x. EachOf (IsWithin x) cuts.now × IsAtLeast x least.now
        × Meets rows.now x) within.old within.new }
    ensures empty { result ≡ Tight.Empty → (x : List ℕ) → IsInBox within.old x → EachOf (IsWithin x) cuts.now
        → IsAtLeast x least.now → ¬ Meets rows.now x }
{
    match cut_all(within, cuts) {
        Tight::Empty => return Tight::Empty,
        Tight::Narrowed => (),
    }
    match raise_all(within, least) {
        Tight::Empty => return Tight::Empty,
        Tight::Narrowed => (),
    }
    tighten_often(rows, within)
}

fn cut_all(within: &mut CountBox, cuts: &[Cut]) -> Tight
    ensures narrowed { result ≡ Tight.Narrowed → Narrows (λ x. EachOf (IsWithin x) cuts.now) within.old within.new }
    ensures empty { result ≡ Tight.Empty → (x : List ℕ) → IsInBox within.old x → ¬ EachOf (IsWithin x) cuts.now }
{
    for cut in cuts {
        match cut_by(within, *cut) {
            Tight::Empty => return Tight::Empty,
            Tight::Narrowed => (),
        }
    }
    Tight::Narrowed
}

fn raise_all(within: &mut CountBox, least: &[u64]) -> Tight
    ensures narrowed { result ≡ Tight.Narrowed → Narrows (λ x. IsAtLeast x least.now) within.old within.new }
    ensures empty { result ≡ Tight.Empty → (x : List ℕ) → IsInBox within.old x → ¬ IsAtLeast x least.now }
{
    for (edge, count) in least.iter().enumerate() {
        match raise(within, edge, *count) {
            Tight::Empty => return Tight::Empty,
            Tight::Narrowed => (),
        }
    }
    Tight::Narrowed
}

// Tightens until no vector is left, or as often as is worth it.
fn tighten_often(rows: &Rows, within: &mut CountBox) -> Tight
    requires { length within.old.limits ≡ rows.now.edges }
    ensures narrowed { result ≡ Tight.Narrowed → Narrows (Meets rows.now) within.old within.new }
    ensures empty { result ≡ Tight.Empty → HasNone rows.now within.old }
{
    for _ in 0..TIMES {
        match tighten(rows, within) {
            Tight::Empty => return Tight::Empty,
            Tight::Narrowed => (),
        }
    }
    Tight::Narrowed
}

// Keeps the vectors whose count of the edge is at least this one.
fn raise(within: &mut CountBox, edge: usize, least: u64) -> Tight
    ensures narrowed { result ≡ Tight.Narrowed → Narrows (λ x. HasLeast x edge least) within.old within.new }
    ensures empty { result ≡ Tight.Empty → (x : List ℕ) → IsInBox within.old x → ¬ HasLeast x edge least }
{
    if edge >= within.limits().len() {
        return Tight::Empty;
    }
    let old = within.limits()[edge];
    if least > old.1 {
        return Tight::Empty;
    }
    if least > old.0 {
        within.limits.set(edge, (least, old.1));
    }
    Tight::Narrowed
}

// Keeps the vectors whose count of the edge is at most this one.
fn lower(within: &mut CountBox, edge: usize, most: u64) -> Tight
    ensures narrowed { result ≡ Tight.Narrowed → Narrows (λ x. HasMost x edge most) within.old within.new }
    ensures empty { result ≡ Tight.Empty → (x : List ℕ) → IsInBox within.old x → ¬ HasMost x edge most }
{
    if edge >= within.limits().len() {
        return Tight::Empty;
    }
    let old = within.limits()[edge];
    if most < old.0 {
        return Tight::Empty;
    }
    if most < old.1 {
        within.limits.set(edge, (old.0, most));
    }
    Tight::Narrowed
}

fn cut_by(within: &mut CountBox, cut: Cut) -> Tight
    ensures narrowed { result ≡ Tight.Narrowed → Narrows (λ x. IsWithin x cut) within.old within.new }
    ensures empty { result ≡ Tight.Empty → (x : List ℕ) → IsInBox within.old x → ¬ IsWithin x cut }
{
    match raise(within, usize::from(cut.edge), cut.lo) {
        Tight::Empty => return Tight::Empty,
        Tight::Narrowed => (),
    }
    lower(within, usize::from(cut.edge), cut.hi)
}
