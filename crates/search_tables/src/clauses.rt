//! Clauses whose literals stand in one table, one clause behind the other.

ghost use Rattle.std.specs.Prelude.{◌≡◌, ◌<◌, [], ◌∷◌, ◌++◌, length, IfOk, OnOk, slice_index_or};

use std::alloc::{AllocError, Global};
use std::marker::Model;

/// Where the literals of a clause stand.
#[derive(Clone, Copy, Debug)]
pub(crate) struct Span {
    pub start: usize,
    pub end: usize,
}

/// A list of clauses, which contracts see as the list of their lists of literals.
#[derive(Drop)]
pub struct Clauses {
    literals: Vec<i32>,
    spans: Vec<Span>,
}

impl Model for Clauses {
    ghost use Rattle.std.specs.Prelude.{List, ℤ, All, map};
    ghost use Rattle.search_tables.specs.Clauses.{span_literals, IsInside};

    ghost Value = { List (List ℤ) };

    ghost view = { λ c. map (span_literals c.literals.items) c.spans.items };

    ghost invariant = { λ c. All (IsInside c.literals.items) c.spans.items };
}

impl Clauses {
    /// No clause.
    pub fn new(alloc: Global) -> Clauses
        ensures { result ≡ [] }
    {
        Clauses {
            literals: Vec::new(alloc),
            spans: Vec::new(alloc),
        }
    }

    /// How many clauses there are.
    pub fn len(&self) -> usize
        ensures { result ≡ length self.now }
    {
        self.spans.len()
    }

    /// The literals of clause `number`.
    pub fn literals(&self, number: u32) -> &[i32]
        requires { number < length self.now }
        ensures { result.now ≡ slice_index_or self.now number [] }
    {
        let span = self.spans[number as usize];
        &self.literals[span.start..span.end]
    }

    /// One clause more, as the last one.
    pub fn push(&mut self, literals: &[i32]) -> Result<(), AllocError>
        ensures { OnOk result (self.new ≡ self.old ++ literals.now ∷ []) }
    {
        let start = self.literals.len();
        self.literals.extend_from_slice(literals)?;
        let end = self.literals.len();
        self.spans.push(Span { start, end })?;
        Ok(())
    }
}
