//! The clauses of a formula while they are read: those that have ended, and the literals of one that has not.

ghost use Rattle.std.specs.Prelude.{
  ◌≡◌,
  ◌<◌,
  ◌≤◌,
  ◌*◌,
  ◌^◌,
  ◌↔◌,
  [],
  ◌∷◌,
  ◌++◌,
  pos,
  IsTrue,
  OnOk,
  MatchOption,
  unsigned_abs,
  ℤ,
  ℕ,
  List,
  length,
  codes,
};
ghost use Rattle.std.specs.Fmt.{signed_decimal};
ghost use Rattle.cnf_form.specs.Literals.{most};
ghost use Rattle.cnf_form.specs.Reading.{
  IsUnnamed,
  IsNew,
  GoesOnBy,
  Grows,
  LeadsToNew,
  LeadsAtOnce,
  Keeps,
  front_words,
};

use crate::clause::Clause;
use crate::cnf::Cnf;
use crate::number::integer_of;
use sqlite_items::Items;
use std::alloc::{AllocError, Global};
use std::collections::HashSet;

/// The numbers of variables and clauses, and the clauses so far. The set has the variables of the literals.
#[derive(Drop)]
pub(crate) struct Front {
    pub variables: u32,
    pub count: u32,
    pub clauses: Vec<Clause>,
    pub literals: Vec<i32>,
    pub named: HashSet<u32>,
}

impl Front {
    /// No clause yet.
    pub(crate) fn new(alloc: Global, variables: u32, count: u32) -> Front
        requires few_variables { variables ≤ most }
        requires few_clauses { count ≤ most }
        ensures keeps { Keeps result }
        ensures variables { result.variables ≡ variables }
        ensures count { result.count ≡ count }
        ensures clauses { result.clauses.items ≡ [] }
        ensures literals { result.literals.items ≡ [] }
    {
        Front {
            variables,
            count,
            clauses: Vec::new(alloc),
            literals: Vec::new(alloc),
            named: HashSet::new(alloc),
        }
    }

    /// The formula of all clauses.
    pub(crate) fn into_formula(self) -> Cnf
        requires keeps { Keeps self }
        requires whole { length self.clauses.items ≡ self.count }
        ensures variables { result.variables ≡ self.variables }
        ensures clauses { result.clauses ≡ self.clauses.items }
    {
        Cnf {
            variables: self.variables,
            clauses: Items::from_vec(self.clauses),
        }
    }

    /// The number that this word goes on with.
    pub(crate) fn next_number(&self, word: &[u8]) -> Option<i32>
        requires { Keeps self.now }
        ensures { MatchOption result
            ((number : ℤ) → ¬ GoesOnBy self.now.variables self.now.count self.now.clauses.items self.now.literals.items
            word.now number)
            (λ number. GoesOnBy self.now.variables self.now.count self.now.clauses.items self.now.literals.items
            word.now number) }
    {
        if self.clauses.len() >= self.count as usize {
            return None;
        }
        let number = integer_of(word)?;
        if number == 0 {
            return Some(number);
        }
        if !self.is_new(number.unsigned_abs()) {
            return None;
        }
        Some(number)
    }

    // Whether this variable is none of the literals', and not above the number of variables.
    fn is_new(&self, variable: u32) -> bool
        requires { Keeps self.now }
        ensures { IsTrue result ↔ ((variable ≤ self.now.variables) × IsUnnamed self.now.literals.items variable) }
    {
        variable <= self.variables && !self.named.contains(&variable)
    }

    /// Goes on with this number.
    pub(crate) fn push(&mut self, alloc: Global, number: i32) -> Result<(), AllocError>
        requires keeps { Keeps self.old }
        requires goes_on { GoesOnBy self.old.variables self.old.count self.old.clauses.items self.old.literals.items
            (signed_decimal number) number }
        ensures keeps { OnOk result (Keeps self.new) }
        ensures variables { OnOk result (self.new.variables ≡ self.old.variables) }
        ensures count { OnOk result (self.new.count ≡ self.old.count) }
        ensures words { OnOk result (front_words self.new.clauses.items self.new.literals.items
            ≡ front_words self.old.clauses.items self.old.literals.items ++ signed_decimal number ∷ []) }
    {
        if number == 0 {
            self.end_clause(alloc)
        } else {
            self.push_literal(number)
        }
    }

    fn end_clause(&mut self, alloc: Global) -> Result<(), AllocError>
        requires keeps { Keeps self.old }
        requires room { length self.old.clauses.items < self.old.count }
        ensures keeps { OnOk result (Keeps self.new) }
        ensures variables { OnOk result (self.new.variables ≡ self.old.variables) }
        ensures count { OnOk result (self.new.count ≡ self.old.count) }
        ensures words { OnOk result (front_words self.new.clauses.items self.new.literals.items
            ≡ front_words self.old.clauses.items self.old.literals.items ++ signed_decimal (pos 0) ∷ []) }
    {
        let clause = Clause::of_clause(alloc, self.literals.as_slice())?;
        self.clauses.push(clause)?;
        self.literals.clear();
        self.named = HashSet::new(alloc);
        Ok(())
    }

    /// Goes on with this literal.
    pub(crate) fn push_literal(&mut self, literal: i32) -> Result<(), AllocError>
        requires keeps { Keeps self.old }
        requires room { length self.old.clauses.items < self.old.count }
        requires new { IsNew self.old.variables self.old.literals.items literal }
        ensures keeps { OnOk result (Keeps self.new) }
        ensures variables { OnOk result (self.new.variables ≡ self.old.variables) }
        ensures count { OnOk result (self.new.count ≡ self.old.count) }
        ensures clauses { OnOk result (self.new.clauses.items ≡ self.old.clauses.items) }
        ensures literals { OnOk result (self.new.literals.items ≡ self.old.literals.items ++ literal ∷ []) }
        ensures words { OnOk result (front_words self.new.clauses.items self.new.literals.items
            ≡ front_words self.old.clauses.items self.old.literals.items ++ signed_decimal literal ∷ []) }
    {
        self.named.insert(literal.unsigned_abs())?;
        self.literals.push(literal)?;
        Ok(())
    }

    /// Whether further bytes can make a word of this one with which it goes on.
    pub(crate) fn may_grow(&self, word: &[u8]) -> bool
        requires keeps { Keeps self.now }
        requires some { 0 < length word.now }
        ensures { IsTrue result ↔ Grows self.now.variables self.now.count self.now.clauses.items
            self.now.literals.items word.now }
    {
        if self.clauses.len() >= self.count as usize {
            return false;
        }
        if is_minus(word) {
            return self.leads_to_new(1, 10);
        }
        let Some(number) = integer_of(word) else {
            return false;
        };
        if number == 0 {
            return true;
        }
        let variable = u64::from(number.unsigned_abs());
        self.leads_to_new(variable, variable + 1)
    }

    // Whether a number from `low` on and below `past` goes on, by further digits or none, to a new variable.
    fn leads_to_new(&self, low: u64, past: u64) -> bool
        requires keeps { Keeps self.now }
        requires some { 0 < low }
        requires few { low ≤ most }
        requires near { past ≤ 10 * low }
        ensures { IsTrue result ↔ LeadsToNew self.now.variables self.now.literals.items low past }
    {
        let mut low = low;
        let mut past = past;
        while low <= u64::from(self.variables) {
            if self.has_new(low, past) {
                return true;
            }
            low *= 10;
            past *= 10;
        }
        false
    }

    // Whether one of these variables is new.
    fn has_new(&self, low: u64, past: u64) -> bool
        requires { Keeps self.now }
        ensures { IsTrue result ↔ LeadsAtOnce self.now.variables self.now.literals.items low past }
    {
        let past = past.min(u64::from(self.variables) + 1);
        for variable in low..past {
            if !self.named.contains(&(variable as u32)) {
                return true;
            }
        }
        false
    }
}

fn is_minus(word: &[u8]) -> bool
    ensures { IsTrue result ↔ (word.now ≡ codes "-") }
{
    word.len() == 1 && word[0] == b'-'
}
