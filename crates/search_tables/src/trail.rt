//! The literals that the search made true.

ghost use Rattle.std.specs.Prelude.{
  ◌≡◌,
  ◌+◌,
  ◌<◌,
  ◌≤◌,
  ◌↔◌,
  ℕ,
  [],
  ◌∷◌,
  ◌++◌,
  length,
  take,
  true,
  false,
  Some,
  None,
  IsTrue,
  IfOk,
  IfSome,
  OnOk,
  neg_ℤ,
  unsigned_abs,
  slice_index_or,
};
ghost use Rattle.cnf_form.specs.Literals.{IsLiteral};
ghost use Rattle.rup_check.specs.Follows.{IsMade};
ghost use Rattle.rup_check.specs.Trail.{IsWithin};
ghost use Rattle.search_tables.specs.Trail.{literal_at, variable_at};

use std::alloc::{AllocError, Global};
use std::marker::Model;

/// A literal that was made true, and the number of the clause that made it so; a decision has none.
#[derive(Clone, Copy, Debug)]
pub(crate) struct Step {
    pub literal: i32,
    pub reason: Option<u32>,
}

/// The literals that were made true, in order, over the variables from 1 to a number. A table has the place of each
/// variable, which counts only where a literal of that variable stands there: so nothing is cleared when literals are
/// taken back.
#[derive(Drop)]
pub struct Trail {
    places: Vec<usize>,
    steps: Vec<Step>,
}

impl Model for Trail {
    ghost use Rattle.std.specs.Prelude.{length, map};
    ghost use Rattle.search_tables.specs.Trail.{Trail, Places};

    ghost Value = { Trail };

    ghost view = { λ t. record {
      variables = length t.places.items;
      literals = map (λ step. step.literal)
          t.steps.items;
      reasons = map (λ step. step.reason) t.steps.items;
    } };

    ghost invariant = { λ t. Places t.places.items (map (λ step. step.literal) t.steps.items) };
}

impl Trail {
    /// No literal is made true yet.
    pub fn new(alloc: Global, variables: u32) -> Result<Trail, AllocError>
        ensures { IfOk result (λ trail. trail ≡ record { variables = variables; literals = []; reasons = [] }) }
    {
        Ok(Trail {
            places: vec![in alloc; 0; variables as usize]?,
            steps: Vec::new(alloc),
        })
    }

    /// How many literals are true.
    pub fn len(&self) -> usize
        ensures { result ≡ length self.now.literals }
    {
        self.steps.len()
    }

    /// The literal at a place.
    pub fn literal(&self, place: usize) -> i32
        requires { place < length self.now.literals }
        ensures { result ≡ literal_at self.now.literals place }
    {
        self.steps[place].literal
    }

    /// The clause that made the literal at a place true.
    pub fn reason(&self, place: usize) -> Option<u32>
        requires { place < length self.now.literals }
        ensures { result ≡ slice_index_or self.now.reasons place None }
    {
        self.steps[place].reason
    }

    /// The place at which a literal of the same variable stands.
    pub fn place(&self, literal: i32) -> Option<usize>
        requires { IsWithin self.now.variables literal }
        ensures there { IfSome result (λ p. (p < length self.now.literals) × (variable_at self.now.literals p
            ≡ unsigned_abs literal)) }
        ensures found { (p : ℕ) → p < length self.now.literals → variable_at self.now.literals p ≡ unsigned_abs literal
            → result ≡ Some p }
    {
        let place = self.places[index(literal)];
        if place < self.steps.len()
            && self.steps[place].literal.unsigned_abs() == literal.unsigned_abs()
        {
            Some(place)
        } else {
            None
        }
    }

    /// Whether the literal is true or false; `None` where it is neither.
    pub fn value(&self, literal: i32) -> Option<bool>
        requires { IsWithin self.now.variables literal }
        ensures is_true { (result ≡ Some true) ↔ IsMade self.now.literals literal }
        ensures is_false { (result ≡ Some false) ↔ IsMade self.now.literals (neg_ℤ literal) }
    {
        match self.place(literal) {
            Some(place) => Some(self.literal(place) == literal),
            None => None,
        }
    }

    /// Whether the literal is true.
    pub fn is_true(&self, literal: i32) -> bool
        requires { IsWithin self.now.variables literal }
        ensures { IsTrue result ↔ IsMade self.now.literals literal }
    {
        matches!(self.value(literal), Some(true))
    }

    /// Whether the literal is false.
    pub fn is_false(&self, literal: i32) -> bool
        requires { IsWithin self.now.variables literal }
        ensures { IsTrue result ↔ IsMade self.now.literals (neg_ℤ literal) }
    {
        matches!(self.value(literal), Some(false))
    }

    /// Makes a literal true that is neither true nor false.
    pub fn push(&mut self, literal: i32, reason: Option<u32>) -> Result<(), AllocError>
        requires within { IsWithin self.old.variables literal }
        requires not_true { ¬ IsMade self.old.literals literal }
        requires not_false { ¬ IsMade self.old.literals (neg_ℤ literal) }
        ensures { OnOk result (self.new ≡ record self.old {
          literals = self.old.literals ++ literal
              ∷ [];
          reasons = self.old.reasons ++ reason ∷ [];
        }) }
    {
        let place = self.steps.len();
        self.steps.push(Step { literal, reason })?;
        self.places[index(literal)] = place;
        Ok(())
    }

    /// Takes all literals back but the first `count`.
    pub fn truncate(&mut self, count: usize)
        ensures { self.new ≡ record self.old {
          literals = take count self.old.literals;
          reasons = take count
              self.old.reasons;
        } }
    {
        self.steps.truncate(count);
    }
}

// Where the literal's variable stands in a table.
fn index(literal: i32) -> usize
    requires { 0 < unsigned_abs literal }
    ensures { result + 1 ≡ unsigned_abs literal }
{
    literal.unsigned_abs() as usize - 1
}

/// The literal's negation.
pub fn negated(literal: i32) -> i32
    requires { IsLiteral literal }
    ensures { result ≡ neg_ℤ literal }
{
    -literal
}
