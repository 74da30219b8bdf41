//! A search learns from a conflict.

ghost use Rattle.std.specs.Prelude.{
  ◌≡◌,
  ◌+◌,
  ◌-◌,
  ◌<◌,
  ◌≤◌,
  ℕ,
  length,
  All,
  OnOk,
  IfSome,
  MatchOption,
  slice_index_or,
  List,
};
ghost use Rattle.cnf_form.specs.Literals.{most, NamesOnce};
ghost use Rattle.rup_check.specs.Trail.{IsWithin};
ghost use Rattle.sat_search.specs.Sound.{last_start};

use crate::analysis::{Learned, analyze};
use crate::search::{Search, take_back};
use cnf_form::{Clause, Cnf, LogLine};
use search_tables::{Order, Trail};
use std::alloc::{AllocError, Global};

impl Search {
    ghost use Rattle.sat_search.specs.Learning.{IsOfPlaces, IsAsserting, IsLearned, GoesBack};
    ghost use Rattle.sat_search.specs.Visits.{Holds, IsConflict, known_by};

    /// Learns a clause from a conflict, goes back to the level at which it is unit, and makes its first literal true
    /// there.
    pub(crate) fn learn(
        &mut self,
        alloc: Global,
        cnf: &Cnf,
        conflict: u32,
    ) -> Result<(), AllocError>
        requires held { Holds cnf.now self.old }
        requires decided { 0 < length self.old.starts.items }
        requires few { length self.old.lines.items < most }
        requires conflict { IsConflict cnf.now self.old conflict }
        ensures held { OnOk result (Holds cnf.now self.new) }
        ensures counted { OnOk result (length self.new.lines.items ≡ length self.old.lines.items + 1) }
    {
        let learned = analyze(
            alloc,
            &self.known,
            &self.trail,
            cnf.variables,
            self.starts.as_slice(),
            conflict,
        )?;
        bump_marked(&self.trail, &mut self.order, learned.seen.as_slice());
        self.order.age();
        let back = self.level_of(learned.literals.as_slice());
        self.adopt(alloc, cnf, learned, back)
    }

    // How many levels stay: those that some literal of the clause, other than its first one, belongs to.
    fn level_of(&self, literals: &[i32]) -> usize
        requires decided { 0 < length self.now.starts.items }
        requires within { All (IsWithin self.now.trail.variables) literals.now }
        requires apart { NamesOnce self.now.trail.literals }
        requires asserting { (places : List ℕ) × IsOfPlaces self.now.trail.literals 0 literals.now places
            × IsAsserting (last_start self.now.starts.items) places }
        ensures { (places : List ℕ) → IsOfPlaces self.now.trail.literals 0 literals.now places
            → IsAsserting (last_start self.now.starts.items) places → GoesBack self.now.starts.items places result }
    {
        if literals.len() < 2 {
            return 0;
        }
        level_behind(self.starts.as_slice(), self.trail.place(literals[1]))
    }

    fn adopt(
        &mut self,
        alloc: Global,
        cnf: &Cnf,
        learned: Learned,
        back: usize,
    ) -> Result<(), AllocError>
        requires held { Holds cnf.now self.old }
        requires few { length self.old.lines.items < most }
        requires learned { IsLearned (known_by cnf.now self.old) self.old.trail.literals
            (last_start self.old.starts.items) learned.literals.items learned.hints.items }
        requires back { (places : List ℕ) → IsOfPlaces self.old.trail.literals 0 learned.literals.items places
            → IsAsserting (last_start self.old.starts.items) places → GoesBack self.old.starts.items places back }
        ensures held { OnOk result (Holds cnf.now self.new) }
        ensures counted { OnOk result (length self.new.lines.items ≡ length self.old.lines.items + 1) }
    {
        let number = (cnf.clauses().len() + self.lines.len()) as u32;
        let literal = learned.literals[0];
        self.watches
            .add_clause(cnf.variables, learned.literals.as_slice())?;
        self.known.push(learned.literals.as_slice())?;
        let clause = Clause::of_clause(alloc, learned.literals.as_slice())?;
        self.lines.push(LogLine::new(clause, learned.hints))?;
        let start = self.starts[back];
        take_back(&self.trail, &mut self.order, start)?;
        self.starts.truncate(back);
        self.trail.truncate(start);
        self.head = start;
        self.trail.push(literal, Some(number))?;
        Ok(())
    }
}

// The first level that begins behind the place, or the first of all.
fn level_behind(starts: &[usize], place: Option<usize>) -> usize
    requires some { 0 < length starts.now }
    requires before { IfSome place (λ p. p < last_start starts.now) }
    ensures there { result < length starts.now }
    ensures behind { IfSome place (λ p. p < slice_index_or starts.now result 0) }
    ensures tight { 0 < result → MatchOption place ⊥ (λ p. slice_index_or starts.now (result - 1) 0 ≤ p) }
{
    match place {
        None => 0,
        Some(place) => {
            let mut back = starts.len() - 1;
            while back > 0 && place < starts[back - 1] {
                back -= 1;
            }
            back
        }
    }
}

// The marked variables were in a conflict.
fn bump_marked(trail: &Trail, order: &mut Order, seen: &[bool]) {
    for place in 0..trail.len() {
        let variable = trail.literal(place).unsigned_abs();
        if let Some(true) = seen.get(variable as usize) {
            order.bump(variable);
        }
    }
}
