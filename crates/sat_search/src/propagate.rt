//! Unit propagation over the state of a search.

ghost use Rattle.std.specs.Prelude.{
  ◌≡◌,
  ◌≢◌,
  ◌+◌,
  ◌<◌,
  ◌≤◌,
  [],
  ◌∷◌,
  ◌++◌,
  take,
  length,
  neg_ℤ,
  MatchBool,
  All,
  Contains,
  IfOk,
  OnOk,
  IfSome,
  MatchOption,
  IsTrue,
  false,
};
ghost use Rattle.rup_check.specs.Trail.{IsWithin};
ghost use Rattle.rup_check.specs.Follows.{IsMade};

use crate::known::known_clause;
use crate::search::Search;
use cnf_form::Cnf;
use search_tables::{Pair, Trail, negated};
use std::alloc::AllocError;

/// What came of a clause that watches a literal that became false.
#[derive(Clone, Copy, Debug)]
pub(crate) enum Visit {
    /// It is satisfied.
    Stays,
    /// It watches another literal.
    Moved,
    /// It is false.
    Conflict(u32),
}

impl Search {
    ghost use Rattle.search_tables.specs.Trail.{literal_at};
    ghost use Rattle.sat_search.specs.Sound.{IsKnownAnd};
    ghost use Rattle.sat_search.specs.Guarded.{AreGuarded};
    ghost use Rattle.sat_search.specs.Visits.{
      Holds,
      Extends,
      Passes,
      IsVisited,
      IsConflict,
      VisitSays,
      known_by,
      watchers,
    };

    /// Visits a clause that watches a literal that became false.
    fn visit(&mut self, cnf: &Cnf, falsified: i32, at: usize) -> Result<Visit, AllocError>
        requires held { Holds cnf.now self.old }
        requires head { self.old.head < length self.old.trail.literals }
        requires falsified { falsified ≡ neg_ℤ (literal_at self.old.trail.literals self.old.head) }
        requires at { at < length (watchers self.old falsified) }
        requires passing { Passes cnf.now self.old falsified at }
        ensures held { OnOk result (Holds cnf.now self.new) }
        ensures extends { OnOk result (Extends self.old self.new) }
        ensures says { IfOk result (λ visit. VisitSays cnf.now self.old self.new falsified at visit) }
    {
        let number = self.watches.entry(falsified, at);
        let other = self.watches.other(number, falsified);
        if self.trail.is_true(other) {
            return Ok(Visit::Stays);
        }
        self.revise(cnf, falsified, at, number, other)
    }

    // Visits the clause of this number, whose other watched literal is not true.
    fn revise(
        &mut self,
        cnf: &Cnf,
        falsified: i32,
        at: usize,
        number: u32,
        other: i32,
    ) -> Result<Visit, AllocError>
        requires held { Holds cnf.now self.old }
        requires head { self.old.head < length self.old.trail.literals }
        requires falsified { falsified ≡ neg_ℤ (literal_at self.old.trail.literals self.old.head) }
        requires at { at < length (watchers self.old falsified) }
        requires passing { Passes cnf.now self.old falsified at }
        requires visited { IsVisited cnf.now self.old falsified at number other }
        requires not_true { ¬ IsMade self.old.trail.literals other }
        ensures held { OnOk result (Holds cnf.now self.new) }
        ensures extends { OnOk result (Extends self.old self.new) }
        ensures says { IfOk result (λ visit. VisitSays cnf.now self.old self.new falsified at visit) }
    {
        let clause = known_clause(&self.known, &self.trail, number);
        match free_literal(&self.trail, clause, other) {
            Some(free) => {
                let pair = Pair { one: free, other };
                self.watches.rewatch(cnf.variables, falsified, at, pair)?;
                Ok(Visit::Moved)
            }
            None => {
                if self.imply(cnf, number, other)? {
                    Ok(Visit::Stays)
                } else {
                    Ok(Visit::Conflict(number))
                }
            }
        }
    }

    // Makes the literal true, which the clause has alone beside false ones; false where it is false itself.
    fn imply(&mut self, cnf: &Cnf, number: u32, literal: i32) -> Result<bool, AllocError>
        requires held { Holds cnf.now self.old }
        requires within { IsWithin self.old.trail.variables literal }
        requires unit { IsKnownAnd (known_by cnf.now self.old) number (λ clause. Contains clause literal
            × All (λ m. m ≢ literal → IsMade self.old.trail.literals (neg_ℤ m)) clause) }
        requires not_true { ¬ IsMade self.old.trail.literals literal }
        ensures held { OnOk result (Holds cnf.now self.new) }
        ensures same { OnOk result (record self.old { trail = self.new.trail } ≡ self.new) }
        ensures says { IfOk result (λ yes. MatchBool yes (self.new.trail.literals ≡ self.old.trail.literals ++ literal
            ∷ []) ((self.new.trail ≡ self.old.trail) × IsConflict cnf.now self.new number)) }
    {
        if self.trail.is_false(literal) {
            return Ok(false);
        }
        self.trail.push(literal, Some(number))?;
        Ok(true)
    }

    // Visits every clause that watches a literal that became false; some conflict, where there is one.
    fn visit_all(&mut self, cnf: &Cnf, falsified: i32) -> Result<Option<u32>, AllocError>
        requires held { Holds cnf.now self.old }
        requires head { self.old.head < length self.old.trail.literals }
        requires falsified { falsified ≡ neg_ℤ (literal_at self.old.trail.literals self.old.head) }
        ensures held { OnOk result (Holds cnf.now self.new) }
        ensures extends { OnOk result (Extends self.old self.new) }
        ensures none { IfOk result (λ conflict. MatchOption conflict (AreGuarded (known_by cnf.now self.new)
            self.new.watches.pairs.items (take (self.new.head + 1) self.new.trail.literals) self.new.trail.literals)
            (λ number. IsConflict cnf.now self.new number)) }
    {
        let mut at = 0;
        while at < self.watches.count(falsified) {
            match self.visit(cnf, falsified, at)? {
                Visit::Stays => at += 1,
                Visit::Moved => {}
                Visit::Conflict(number) => return Ok(Some(number)),
            }
        }
        Ok(None)
    }

    /// Makes every literal true that a clause has alone beside false ones, until there is none; or some clause is
    /// false.
    pub(crate) fn propagate(&mut self, cnf: &Cnf) -> Result<Option<u32>, AllocError>
        requires { Holds cnf.now self.old }
        ensures held { OnOk result (Holds cnf.now self.new) }
        ensures lines { OnOk result (self.new.lines ≡ self.old.lines) }
        ensures starts { OnOk result (self.new.starts ≡ self.old.starts) }
        ensures longer { OnOk result (length self.old.trail.literals ≤ length self.new.trail.literals) }
        ensures none { IfOk result (λ conflict. MatchOption conflict (self.new.head ≡ length self.new.trail.literals)
            (λ number. IsConflict cnf.now self.new number)) }
    {
        while self.head < self.trail.len() {
            let falsified = negated(self.trail.literal(self.head));
            if let Some(number) = self.visit_all(cnf, falsified)? {
                return Ok(Some(number));
            }
            self.head += 1;
        }
        Ok(None)
    }
}

// A literal of the clause, other than this one, that is not false.
fn free_literal(trail: &Trail, clause: &[i32], other: i32) -> Option<i32>
    requires { All (IsWithin trail.now.variables) clause.now }
    ensures named { IfSome result (λ l. Contains clause.now l) }
    ensures differ { IfSome result (λ l. l ≢ other) }
    ensures free { IfSome result (λ l. ¬ IsMade trail.now.literals (neg_ℤ l)) }
    ensures none { MatchOption result (All (λ l. l ≢ other → IsMade trail.now.literals (neg_ℤ l)) clause.now)
        (λ _. Unit {0}) }
{
    for literal in clause {
        if is_free(trail, *literal, other) {
            return Some(*literal);
        }
    }
    None
}

// Whether the literal is another one, and not false.
fn is_free(trail: &Trail, literal: i32, other: i32) -> bool
    requires { IsWithin trail.now.variables literal }
    ensures differ { IsTrue result → literal ≢ other }
    ensures free { IsTrue result → ¬ IsMade trail.now.literals (neg_ℤ literal) }
    ensures not_free { result ≡ false → literal ≢ other → IsMade trail.now.literals (neg_ℤ literal) }
{
    literal != other && !trail.is_false(literal)
}
