//! The state of a search, and its decisions.

ghost use Rattle.std.specs.Prelude.{
  ◌≡◌,
  ◌⊎◌,
  ◌+◌,
  ◌≤◌,
  [],
  length,
  neg_ℤ,
  MatchBool,
  IfOk,
  OnOk,
  IfSome,
  MatchOption,
  Some,
  IsTrue,
  false,
  slice_get,
  unsigned_abs,
};
ghost use Rattle.cnf_form.specs.Literals.{most, IsClause, NamesUpTo};
ghost use Rattle.rup_check.specs.Trail.{IsWithin};
ghost use Rattle.rup_check.specs.Follows.{IsMade};
ghost use Rattle.sat_search.specs.Totals.{IsTotal};

use crate::known::formula_clauses;
use cnf_form::{Cnf, LogLine};
use search_tables::{Clauses, Order, Trail, Watches};
use std::alloc::{AllocError, Global};

/// The learned lines; all clauses that are known; the literals that are true; where each level begins, with its
/// decision; the watched literals; and how many of the true literals were propagated. Which variables to decide first
/// is a matter of speed alone.
#[derive(Drop)]
pub(crate) struct Search {
    pub lines: Vec<LogLine>,
    pub known: Clauses,
    pub trail: Trail,
    pub starts: Vec<usize>,
    pub watches: Watches,
    pub head: usize,
    pub order: Order,
}

impl Search {
    ghost use Rattle.search_tables.specs.Watching.{IsWatching};
    ghost use Rattle.sat_search.specs.Loading.{IsLoading, IsRefuted};
    ghost use Rattle.sat_search.specs.Visits.{Holds, IsConflict};

    /// The clauses of the formula are known, and none is watched yet.
    pub(crate) fn new(alloc: Global, cnf: &Cnf) -> Result<Search, AllocError>
        ensures lines { IfOk result (λ s. s.lines.items ≡ []) }
        ensures known { IfOk result (λ s. s.known ≡ cnf.now.clauses) }
        ensures starts { IfOk result (λ s. s.starts.items ≡ []) }
        ensures head { IfOk result (λ s. s.head ≡ 0) }
        ensures trail { IfOk result (λ s. s.trail ≡ record {
          variables = cnf.now.variables;
          literals = [];
          reasons = [];
        }) }
        ensures pairs { IfOk result (λ s. s.watches.pairs.items ≡ []) }
        ensures watching { IfOk result (λ s. IsWatching cnf.now.variables s.watches.pairs.items s.watches.lists.items) }
    {
        Ok(Search {
            lines: Vec::new(alloc),
            known: formula_clauses(alloc, cnf.clauses())?,
            trail: Trail::new(alloc, cnf.variables)?,
            starts: Vec::new(alloc),
            watches: Watches::new(alloc, cnf.variables)?,
            head: 0,
            order: Order::new(alloc, cnf.variables)?,
        })
    }

    // Takes a clause of the formula in; false where it is false already.
    fn load(&mut self, cnf: &Cnf, number: u32, literals: &[i32]) -> Result<bool, AllocError>
        requires loading { IsLoading cnf.now self.old.trail self.old.watches.pairs.items self.old.watches.lists.items
            number }
        requires clause { slice_get cnf.now.clauses number ≡ Some literals.now }
        requires is_clause { IsClause literals.now }
        requires named { NamesUpTo cnf.now.variables literals.now }
        ensures same { OnOk result (record self.old { trail = self.new.trail; watches = self.new.watches } ≡ self.new) }
        ensures says { IfOk result (λ yes. MatchBool yes (IsLoading cnf.now self.new.trail self.new.watches.pairs.items
            self.new.watches.lists.items (number + 1)) (IsRefuted cnf.now.clauses cnf.now self.new.trail number)) }
    {
        if literals.is_empty() {
            return Ok(false);
        }
        self.watches.add_clause(cnf.variables, literals)?;
        if literals.len() > 1 {
            return Ok(true);
        }
        let literal = literals[0];
        if self.trail.is_true(literal) {
            return Ok(true);
        }
        if self.trail.is_false(literal) {
            return Ok(false);
        }
        self.trail.push(literal, Some(number))?;
        Ok(true)
    }

    /// Takes the clauses of the formula in; some clause, where one is false already.
    pub(crate) fn load_all(&mut self, cnf: &Cnf) -> Result<Option<u32>, AllocError>
        requires loading { IsLoading cnf.now self.old.trail self.old.watches.pairs.items self.old.watches.lists.items 0 }
        requires lines { self.old.lines.items ≡ [] }
        requires known { self.old.known ≡ cnf.now.clauses }
        requires starts { self.old.starts.items ≡ [] }
        requires head { self.old.head ≡ 0 }
        ensures lines { OnOk result (self.new.lines.items ≡ []) }
        ensures known { OnOk result (self.new.known ≡ cnf.now.clauses) }
        ensures starts { OnOk result (self.new.starts.items ≡ []) }
        ensures none { IfOk result (λ conflict. MatchOption conflict (Holds cnf.now self.new)
            (λ number. IsRefuted cnf.now.clauses cnf.now self.new.trail number)) }
    {
        for (i, clause) in cnf.clauses().iter().enumerate() {
            if !self.load(cnf, i as u32, clause.literals())? {
                return Ok(Some(i as u32));
            }
        }
        Ok(None)
    }

    // Makes the literal true as a decision.
    fn decide(&mut self, cnf: &Cnf, literal: i32) -> Result<(), AllocError>
        requires held { Holds cnf.now self.old }
        requires done { self.old.head ≡ length self.old.trail.literals }
        requires within { IsWithin self.old.trail.variables literal }
        requires not_true { ¬ IsMade self.old.trail.literals literal }
        requires not_false { ¬ IsMade self.old.trail.literals (neg_ℤ literal) }
        ensures held { OnOk result (Holds cnf.now self.new) }
        ensures lines { OnOk result (self.new.lines ≡ self.old.lines) }
        ensures longer { OnOk result (length self.new.trail.literals ≡ length self.old.trail.literals + 1) }
    {
        self.starts.push(self.trail.len())?;
        self.trail.push(literal, None)?;
        Ok(())
    }

    /// Decides and propagates until a clause is false, or every variable is decided.
    pub(crate) fn descend(&mut self, cnf: &Cnf) -> Result<Option<u32>, AllocError>
        requires { Holds cnf.now self.old }
        ensures held { OnOk result (Holds cnf.now self.new) }
        ensures lines { OnOk result (self.new.lines ≡ self.old.lines) }
        ensures none { IfOk result (λ conflict. MatchOption conflict ((self.new.head ≡ length self.new.trail.literals)
            × IsTotal cnf.now.variables self.new.trail.literals) (λ number. IsConflict cnf.now self.new number)) }
    {
        'levels: loop {
            if let Some(number) = self.propagate(cnf)? {
                return Ok(Some(number));
            }
            match open_literal(&self.trail, &mut self.order, cnf.variables) {
                Some(literal) => self.decide(cnf, literal)?,
                None => return Ok(None),
            }
        }
    }

    /// Takes every decision back.
    pub(crate) fn restart(&mut self, cnf: &Cnf) -> Result<(), AllocError>
        requires { Holds cnf.now self.old }
        ensures held { OnOk result (Holds cnf.now self.new) }
        ensures lines { OnOk result (self.new.lines ≡ self.old.lines) }
    {
        if self.starts.is_empty() {
            return Ok(());
        }
        let start = self.starts[0];
        take_back(&self.trail, &mut self.order, start)?;
        self.starts.clear();
        self.trail.truncate(start);
        self.head = start;
        Ok(())
    }
}

// A literal that is neither true nor false.
fn open_literal(trail: &Trail, order: &mut Order, variables: u32) -> Option<i32>
    requires same { trail.now.variables ≡ variables }
    requires few { variables ≤ most }
    ensures within { IfSome result (λ l. IsWithin variables l) }
    ensures not_true { IfSome result (λ l. ¬ IsMade trail.now.literals l) }
    ensures not_false { IfSome result (λ l. ¬ IsMade trail.now.literals (neg_ℤ l)) }
    ensures none { MatchOption result (IsTotal variables trail.now.literals) (λ _. Unit {0}) }
{
    if let Some(literal) = favourite(trail, order, variables) {
        return Some(literal);
    }
    for variable in 0..variables {
        let literal = variable as i32 + 1;
        if is_open(trail, literal) {
            return Some(literal);
        }
    }
    None
}

// Whether the literal is neither true nor false.
fn is_open(trail: &Trail, literal: i32) -> bool
    requires { IsWithin trail.now.variables literal }
    ensures not_true { IsTrue result → ¬ IsMade trail.now.literals literal }
    ensures not_false { IsTrue result → ¬ IsMade trail.now.literals (neg_ℤ literal) }
    ensures decided { result ≡ false → IsMade trail.now.literals literal ⊎ IsMade trail.now.literals (neg_ℤ literal) }
{
    !trail.is_true(literal) && !trail.is_false(literal)
}

// The first open literal in the order, if the order has one.
fn favourite(trail: &Trail, order: &mut Order, variables: u32) -> Option<i32>
    requires same { trail.now.variables ≡ variables }
    requires few { variables ≤ most }
    ensures within { IfSome result (λ l. IsWithin variables l) }
    ensures not_true { IfSome result (λ l. ¬ IsMade trail.now.literals l) }
    ensures not_false { IfSome result (λ l. ¬ IsMade trail.now.literals (neg_ℤ l)) }
{
    for _entry in 0..variables {
        let variable = order.pop()?;
        if 0 < variable && variable <= variables {
            let literal = signed(variable, order.sign(variable));
            if is_open(trail, literal) {
                return Some(literal);
            }
        }
    }
    None
}

// The literal of this variable and sign.
fn signed(variable: u32, sign: bool) -> i32
    requires { variable ≤ most }
    ensures { unsigned_abs result ≡ variable }
{
    if sign {
        variable as i32
    } else {
        -(variable as i32)
    }
}

/// The literals from this place on are taken back.
pub(crate) fn take_back(trail: &Trail, order: &mut Order, start: usize) -> Result<(), AllocError> {
    for place in start..trail.len() {
        order.take_back(trail.literal(place))?;
    }
    Ok(())
}
