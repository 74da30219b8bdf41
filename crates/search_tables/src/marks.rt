//! The variables that a conflict rests on.

ghost use Rattle.std.specs.Prelude.{
  ◌≡◌,
  ◌+◌,
  ◌<◌,
  ◌≤◌,
  ℕ,
  ℤ,
  length,
  true,
  false,
  Some,
  IsTrue,
  IfOk,
  All,
  unsigned_abs,
  slice_index_or,
};
ghost use Rattle.rup_check.specs.Trail.{IsWithin};
ghost use Rattle.search_tables.specs.Marking.{IsSeen, IsLow};

use crate::trail::Trail;
use std::alloc::{AllocError, Global};

/// The variables that are marked, and the least place at or behind `from` at which a marked one stands on the trail.
#[derive(Drop)]
pub struct Marks {
    pub seen: Vec<bool>,
    pub from: usize,
    pub low: usize,
}

impl Marks {
    ghost use Rattle.search_tables.specs.Marking.{MarksMore};

    /// No variable is marked.
    pub fn new(
        alloc: Global,
        trail: &Trail,
        variables: u32,
        from: usize,
    ) -> Result<Marks, AllocError>
        requires { from ≤ length trail.now.literals }
        ensures sized { IfOk result (λ marks. length marks.seen.items ≡ variables + 1) }
        ensures from { IfOk result (λ marks. marks.from ≡ from) }
        ensures low { IfOk result (λ marks. marks.low ≡ length trail.now.literals) }
        ensures none { IfOk result (λ marks. IsLow trail.now.literals marks.seen.items from marks.low) }
    {
        Ok(Marks {
            seen: vec![in alloc; false; variables as usize + 1]?,
            from,
            low: trail.len(),
        })
    }

    /// Whether the literal's variable is marked.
    pub fn is_seen(&self, literal: i32) -> bool
        requires { unsigned_abs literal < length self.now.seen.items }
        ensures { result ≡ slice_index_or self.now.seen.items (unsigned_abs literal) false }
    {
        self.seen[literal.unsigned_abs() as usize]
    }

    /// Whether the variables of these literals are all marked.
    pub fn are_seen(&self, literals: &[i32]) -> bool
        requires { All (λ l. unsigned_abs l < length self.now.seen.items) literals.now }
        ensures { IsTrue result → All (IsSeen self.now.seen.items) literals.now }
    {
        for literal in literals {
            if !self.is_seen(*literal) {
                return false;
            }
        }
        true
    }

    /// Marks the variables of these literals.
    pub fn mark(&mut self, trail: &Trail, literals: &[i32])
        requires within { All (IsWithin trail.now.variables) literals.now }
        requires sized { length self.old.seen.items ≡ trail.now.variables + 1 }
        ensures more { MarksMore trail.now.literals self.old self.new }
        ensures marked { All (IsSeen self.new.seen.items) literals.now }
    {
        for literal in literals {
            self.mark_one(trail, *literal);
        }
    }

    fn mark_one(&mut self, trail: &Trail, literal: i32)
        requires within { IsWithin trail.now.variables literal }
        requires sized { length self.old.seen.items ≡ trail.now.variables + 1 }
        ensures more { MarksMore trail.now.literals self.old self.new }
        ensures marked { IsSeen self.new.seen.items literal }
    {
        self.seen[literal.unsigned_abs() as usize] = true;
        self.low = lower(self.low, self.from, trail.place(literal));
    }
}

// The lesser one of `low` and the place, where that is at or behind `from`.
fn lower(low: usize, from: usize, place: Option<usize>) -> usize
    ensures least { result ≤ low }
    ensures reached { (p : ℕ) → place ≡ Some p → from ≤ p → result ≤ p }
    ensures above { from ≤ low → from ≤ result }
{
    match place {
        Some(place) if from <= place && place < low => place,
        _ => low,
    }
}
