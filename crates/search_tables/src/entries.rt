//! Lists of numbers of clauses.

ghost use Rattle.std.specs.Prelude.{◌≡◌, ◌<◌, [], ◌∷◌, ◌++◌, length, OnOk, slice_index_or};
ghost use Rattle.search_tables.specs.Entries.{IsRemoved};

use std::alloc::{AllocError, Global};
use std::marker::Model;

/// The numbers of the clauses that watch a literal, in no order.
#[derive(Drop)]
pub struct Entries {
    numbers: Vec<u32>,
}

impl Model for Entries {
    ghost use Rattle.std.specs.Prelude.{List, ℕ};

    ghost Value = { List ℕ };

    ghost view = { λ e. e.numbers.items };
}

impl Entries {
    pub fn new(alloc: Global) -> Entries
        ensures { result ≡ [] }
    {
        Entries {
            numbers: Vec::new(alloc),
        }
    }

    pub fn len(&self) -> usize
        ensures { result ≡ length self.now }
    {
        self.numbers.len()
    }

    pub fn at(&self, i: usize) -> u32
        requires { i < length self.now }
        ensures { result ≡ slice_index_or self.now i 0 }
    {
        self.numbers[i]
    }

    pub fn push(&mut self, number: u32) -> Result<(), AllocError>
        ensures { OnOk result (self.new ≡ self.old ++ number ∷ []) }
    {
        self.numbers.push(number)?;
        Ok(())
    }

    /// Takes the number at i out; the last one takes its place.
    pub fn remove(&mut self, i: usize)
        requires { i < length self.old }
        ensures { IsRemoved self.old i self.new }
    {
        self.numbers.swap_remove(i);
    }
}
