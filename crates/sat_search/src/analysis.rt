//! What a conflict teaches.

ghost use Rattle.std.specs.Prelude.{
  ◌≡◌,
  ◌+◌,
  ◌<◌,
  ◌≤◌,
  ℕ,
  ℤ,
  List,
  [],
  length,
  take,
  map,
  reverse,
  neg_ℤ,
  IfOk,
  IfSome,
  OnOk,
  All,
};
ghost use Rattle.cnf_form.specs.Literals.{most, NamesOnce};
ghost use Rattle.rup_check.specs.Follows.{IsFalse, Leads};
ghost use Rattle.rup_check.specs.Trail.{IsWithin};
ghost use Rattle.sat_search.specs.Sound.{IsKnownAnd, IsSound, last_start};
ghost use Rattle.sat_search.specs.Tracing.{Traces};
ghost use Rattle.sat_search.specs.Learning.{IsReasoned, IfReasoned, IsMarkedReason, IsOfPlaces, IsAsserting, IsLearned};
ghost use Rattle.search_tables.specs.Marking.{IsLow, MarksMore};

use crate::known::known_clause;
use search_tables::{Clauses, Marks, Trail, negated};
use std::alloc::{AllocError, Global};

// Resolves on the literal at the place with its reason, where it is marked.
fn trace_at(
    known: &Clauses,
    trail: &Trail,
    marks: &mut Marks,
    hints: &mut Vec<u32>,
    place: usize,
) -> Result<(), AllocError>
    requires known { All (All (IsWithin trail.now.variables)) known.now }
    requires within { All (IsWithin trail.now.variables) trail.now.literals }
    requires apart { NamesOnce trail.now.literals }
    requires inside { place < length trail.now.literals }
    requires reasoned { IsReasoned known.now trail.now place }
    requires sized { length marks.old.seen.items ≡ trail.now.variables + 1 }
    requires hinted { 0 < length hints.old.items }
    ensures more { OnOk result (MarksMore trail.now.literals marks.old marks.new) }
    ensures hinted { OnOk result (0 < length hints.new.items) }
    ensures traced { OnOk result ((kept : List ℤ) → Traces known.now trail.now.literals (place + 1)
        marks.old.seen.items kept (reverse hints.old.items) → Traces known.now trail.now.literals place
        marks.new.seen.items kept (reverse hints.new.items)) }
{
    if marks.is_seen(trail.literal(place)) {
        if let Some(number) = trail.reason(place) {
            hints.push(number)?;
            marks.mark(trail, known_clause(known, trail, number));
        }
    }
    Ok(())
}

// Resolves on every marked literal behind the least marked place of the level.
fn trace_level(
    known: &Clauses,
    trail: &Trail,
    marks: &mut Marks,
    hints: &mut Vec<u32>,
) -> Result<(), AllocError>
    requires known { All (All (IsWithin trail.now.variables)) known.now }
    requires within { All (IsWithin trail.now.variables) trail.now.literals }
    requires apart { NamesOnce trail.now.literals }
    requires reasoned { (p : ℕ) → marks.old.from < p → p < length trail.now.literals → IsReasoned known.now trail.now p }
    requires sized { length marks.old.seen.items ≡ trail.now.variables + 1 }
    requires low { IsLow trail.now.literals marks.old.seen.items marks.old.from marks.old.low }
    requires above { marks.old.from ≤ marks.old.low }
    requires below { marks.old.low < length trail.now.literals }
    requires hinted { 0 < length hints.old.items }
    requires traced { Traces known.now trail.now.literals (length trail.now.literals) marks.old.seen.items []
        (reverse hints.old.items) }
    ensures sized { OnOk result (length marks.new.seen.items ≡ trail.now.variables + 1) }
    ensures from { OnOk result (marks.new.from ≡ marks.old.from) }
    ensures low { OnOk result (IsLow trail.now.literals marks.new.seen.items marks.new.from marks.new.low) }
    ensures above { OnOk result (marks.old.from ≤ marks.new.low) }
    ensures below { OnOk result (marks.new.low < length trail.now.literals) }
    ensures hinted { OnOk result (0 < length hints.new.items) }
    ensures traced { OnOk result (Traces known.now trail.now.literals (marks.new.low + 1) marks.new.seen.items []
        (reverse hints.new.items)) }
{
    let mut place = trail.len();
    while place > marks.low + 1 {
        place -= 1;
        trace_at(known, trail, marks, hints, place)?;
    }
    Ok(())
}

// Resolves on every marked literal before `place`.
fn trace_down(
    known: &Clauses,
    trail: &Trail,
    marks: &mut Marks,
    hints: &mut Vec<u32>,
    place: usize,
) -> Result<(), AllocError>
    requires known { All (All (IsWithin trail.now.variables)) known.now }
    requires within { All (IsWithin trail.now.variables) trail.now.literals }
    requires apart { NamesOnce trail.now.literals }
    requires inside { place ≤ length trail.now.literals }
    requires reasoned { (p : ℕ) → p < place → IsReasoned known.now trail.now p }
    requires sized { length marks.old.seen.items ≡ trail.now.variables + 1 }
    requires hinted { 0 < length hints.old.items }
    ensures { OnOk result ((kept : List ℤ) → Traces known.now trail.now.literals place marks.old.seen.items kept
        (reverse hints.old.items) → Leads known.now kept (reverse hints.new.items)) }
{
    let mut place = place;
    while place > 0 {
        place -= 1;
        trace_at(known, trail, marks, hints, place)?;
    }
    Ok(())
}

// The number of the reason of the literal at the place, where all literals of that clause are marked.
fn marked_reason(known: &Clauses, trail: &Trail, marks: &Marks, place: usize) -> Option<u32>
    requires known { All (All (IsWithin trail.now.variables)) known.now }
    requires inside { place < length trail.now.literals }
    requires reasoned { IfReasoned known.now trail.now place }
    requires sized { length marks.now.seen.items ≡ trail.now.variables + 1 }
    ensures { IfSome result (λ number. IsMarkedReason known.now trail.now place marks.now.seen.items number) }
{
    if let Some(number) = trail.reason(place) {
        if marks.are_seen(known_clause(known, trail, number)) {
            return Some(number);
        }
    }
    None
}

// Keeps the negation of the literal at the place, where it is marked; or resolves on it, where its reason is marked
// too.
fn keep_at(
    known: &Clauses,
    trail: &Trail,
    marks: &Marks,
    literals: &mut Vec<i32>,
    hints: &mut Vec<u32>,
    place: usize,
) -> Result<(), AllocError>
    requires few { trail.now.variables ≤ most }
    requires known { All (All (IsWithin trail.now.variables)) known.now }
    requires within { All (IsWithin trail.now.variables) trail.now.literals }
    requires apart { NamesOnce trail.now.literals }
    requires inside { place < length trail.now.literals }
    requires reasoned { IfReasoned known.now trail.now place }
    requires sized { length marks.now.seen.items ≡ trail.now.variables + 1 }
    requires low { IsLow trail.now.literals marks.now.seen.items marks.now.from marks.now.low }
    requires early { place < marks.now.low }
    requires hinted { 0 < length hints.old.items }
    ensures hinted { OnOk result (0 < length hints.new.items) }
    ensures places { OnOk result ((places : List ℕ) → IsOfPlaces trail.now.literals (place + 1) literals.old.items
        places → IsAsserting marks.now.from places → (more : List ℕ) × IsOfPlaces trail.now.literals place
        literals.new.items more × IsAsserting marks.now.from more) }
    ensures traced { OnOk result (Traces known.now trail.now.literals (place + 1) marks.now.seen.items
        (map neg_ℤ literals.old.items) (reverse hints.old.items) → Traces known.now trail.now.literals place
        marks.now.seen.items (map neg_ℤ literals.new.items) (reverse hints.new.items)) }
{
    let literal = trail.literal(place);
    if !marks.is_seen(literal) {
        return Ok(());
    }
    if let Some(number) = marked_reason(known, trail, marks, place) {
        hints.push(number)?;
        return Ok(());
    }
    literals.push(negated(literal))?;
    Ok(())
}

// Keeps the negation of every marked literal from `base` on and before the least marked place of the level, but for
// those that the others make superfluous.
fn keep_marked(
    known: &Clauses,
    trail: &Trail,
    marks: &Marks,
    literals: &mut Vec<i32>,
    hints: &mut Vec<u32>,
    base: usize,
) -> Result<(), AllocError>
    requires few { trail.now.variables ≤ most }
    requires known { All (All (IsWithin trail.now.variables)) known.now }
    requires within { All (IsWithin trail.now.variables) trail.now.literals }
    requires apart { NamesOnce trail.now.literals }
    requires reasoned { (p : ℕ) → p < length trail.now.literals → IfReasoned known.now trail.now p }
    requires sized { length marks.now.seen.items ≡ trail.now.variables + 1 }
    requires low { IsLow trail.now.literals marks.now.seen.items marks.now.from marks.now.low }
    requires below { marks.now.low < length trail.now.literals }
    requires base { base ≤ marks.now.low }
    requires hinted { 0 < length hints.old.items }
    ensures hinted { OnOk result (0 < length hints.new.items) }
    ensures places { OnOk result ((places : List ℕ) → IsOfPlaces trail.now.literals marks.now.low literals.old.items
        places → IsAsserting marks.now.from places → (more : List ℕ) × IsOfPlaces trail.now.literals 0
        literals.new.items more × IsAsserting marks.now.from more) }
    ensures traced { OnOk result (Traces known.now trail.now.literals marks.now.low marks.now.seen.items
        (map neg_ℤ literals.old.items) (reverse hints.old.items) → Traces known.now trail.now.literals base
        marks.now.seen.items (map neg_ℤ literals.new.items) (reverse hints.new.items)) }
{
    let mut place = marks.low;
    while place > base {
        place -= 1;
        keep_at(known, trail, marks, literals, hints, place)?;
    }
    Ok(())
}

// The hints in the order of propagation: they were found from the conflict back.
fn in_order(found: Vec<u32>) -> Vec<u32>
    ensures { result.items ≡ reverse found.items }
{
    let mut hints = found;
    hints.reverse();
    hints
}

/// A clause that a conflict teaches, and the hints from which it follows; and the variables that were marked on the
/// way.
#[derive(Debug, Drop)]
pub(crate) struct Learned {
    pub literals: Vec<i32>,
    pub hints: Vec<u32>,
    pub seen: Vec<bool>,
}

/// What the conflict teaches, a known clause that is false, where there are decisions: the clause has one literal of
/// the last level, its first one, and after it the others, the latest first.
pub(crate) fn analyze(
    alloc: Global,
    known: &Clauses,
    trail: &Trail,
    variables: u32,
    starts: &[usize],
    conflict: u32,
) -> Result<Learned, AllocError>
    requires variables { trail.now.variables ≡ variables }
    requires few { variables ≤ most }
    requires known { All (All (IsWithin trail.now.variables)) known.now }
    requires sound { IsSound known.now trail.now starts.now }
    requires decided { 0 < length starts.now }
    requires conflict { IsKnownAnd known.now conflict (λ literals. IsFalse trail.now.literals literals
        × (¬ IsFalse (take (last_start starts.now) trail.now.literals) literals)) }
    ensures { IfOk result (λ learned. IsLearned known.now trail.now.literals (last_start starts.now)
        learned.literals.items learned.hints.items) }
{
    let mut marks = Marks::new(alloc, trail, variables, starts[starts.len() - 1])?;
    let mut hints = Vec::new(alloc);
    hints.push(conflict)?;
    marks.mark(trail, known_clause(known, trail, conflict));
    trace_level(known, trail, &mut marks, &mut hints)?;
    let mut literals = Vec::new(alloc);
    literals.push(negated(trail.literal(marks.low)))?;
    keep_marked(known, trail, &marks, &mut literals, &mut hints, starts[0])?;
    trace_down(known, trail, &mut marks, &mut hints, starts[0])?;
    Ok(Learned {
        literals,
        hints: in_order(hints),
        seen: marks.seen,
    })
}

/// The hints from which the empty clause follows, where a known clause is false and no literal is a decision.
pub(crate) fn refute(
    alloc: Global,
    known: &Clauses,
    trail: &Trail,
    variables: u32,
    conflict: u32,
) -> Result<Vec<u32>, AllocError>
    requires variables { trail.now.variables ≡ variables }
    requires few { variables ≤ most }
    requires known { All (All (IsWithin trail.now.variables)) known.now }
    requires sound { IsSound known.now trail.now [] }
    requires conflict { IsKnownAnd known.now conflict (λ literals. IsFalse trail.now.literals literals) }
    ensures { IfOk result (λ hints. Leads known.now [] hints.items) }
{
    let mut marks = Marks::new(alloc, trail, variables, trail.len())?;
    let mut hints = Vec::new(alloc);
    hints.push(conflict)?;
    marks.mark(trail, known_clause(known, trail, conflict));
    trace_down(known, trail, &mut marks, &mut hints, trail.len())?;
    Ok(in_order(hints))
}
