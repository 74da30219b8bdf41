//! The literals that clauses watch.

ghost use Rattle.std.specs.Prelude.{
  ◌≡◌,
  ◌≢◌,
  ◌⊎◌,
  ◌+◌,
  ◌<◌,
  ◌≤◌,
  ◌^◌,
  ℕ,
  [],
  ◌∷◌,
  ◌++◌,
  length,
  drop,
  unsigned_abs,
  All,
  Contains,
  IfOk,
  OnOk,
  slice_index_or,
  slice_set,
};
ghost use Rattle.cnf_form.specs.Literals.{most, NamesOnce};
ghost use Rattle.rup_check.specs.Trail.{IsWithin};
ghost use Rattle.search_tables.specs.Entries.{IsTakenOut, spot_of, list_of};

use crate::entries::Entries;
use std::alloc::{AllocError, Global};

/// The two literals that a clause watches; a clause of one literal has it twice.
#[derive(Clone, Copy, Debug)]
pub struct Pair {
    pub one: i32,
    pub other: i32,
}

/// The literals that each clause watches, and for each literal the clauses that watch it.
#[derive(Drop)]
pub struct Watches {
    pub pairs: Vec<Pair>,
    pub lists: Vec<Entries>,
}

impl Watches {
    ghost use Rattle.search_tables.specs.Watching.{pair_at, IsWatching, IsChange, WatchesMore};

    /// No clause.
    pub fn new(alloc: Global, variables: u32) -> Result<Watches, AllocError>
        requires { variables ≤ most }
        ensures none { IfOk result (λ watches. watches.pairs.items ≡ []) }
        ensures watching { IfOk result (λ watches. IsWatching variables watches.pairs.items watches.lists.items) }
    {
        let mut lists = Vec::new(alloc);
        for _spot in 0..2 * variables as usize + 2 {
            lists.push(Entries::new(alloc))?;
        }
        Ok(Watches {
            pairs: Vec::new(alloc),
            lists,
        })
    }

    /// How many clauses may watch the literal.
    pub fn count(&self, literal: i32) -> usize
        requires { spot_of literal < length self.now.lists.items }
        ensures { result ≡ length (list_of self.now.lists.items literal) }
    {
        self.lists[spot(literal)].len()
    }

    /// One of them.
    pub fn entry(&self, literal: i32, at: usize) -> u32
        requires inside { spot_of literal < length self.now.lists.items }
        requires at { at < length (list_of self.now.lists.items literal) }
        ensures { result ≡ slice_index_or (list_of self.now.lists.items literal) at 0 }
    {
        self.lists[spot(literal)].at(at)
    }

    /// The literal that the clause watches beside this one.
    pub fn other(&self, number: u32, falsified: i32) -> i32
        requires { number < length self.now.pairs.items }
        ensures stays { (result ≡ (pair_at self.now.pairs.items number).one)
            ⊎ (result ≡ (pair_at self.now.pairs.items number).other) }
        ensures differ { (pair_at self.now.pairs.items number).one ≢ (pair_at self.now.pairs.items number).other
            → result ≢ falsified }
    {
        let pair = self.pairs[number as usize];
        if pair.one == falsified {
            pair.other
        } else {
            pair.one
        }
    }

    fn push(&mut self, literal: i32, number: u32) -> Result<(), AllocError>
        requires { spot_of literal < length self.old.lists.items }
        ensures lists { OnOk result (self.new.lists.items ≡ slice_set self.old.lists.items (spot_of literal)
            (list_of self.old.lists.items literal ++ number ∷ [])) }
        ensures pairs { self.new.pairs ≡ self.old.pairs }
    {
        self.lists[spot(literal)].push(number)
    }

    fn remove(&mut self, literal: i32, at: usize)
        requires inside { spot_of literal < length self.old.lists.items }
        requires at { at < length (list_of self.old.lists.items literal) }
        ensures lists { IsTakenOut self.old.lists.items (spot_of literal) at self.new.lists.items }
        ensures pairs { self.new.pairs ≡ self.old.pairs }
    {
        self.lists[spot(literal)].remove(at);
    }

    /// The clause at this place in the list of a literal watches these two from now on, one of which it watched before.
    pub fn rewatch(
        &mut self,
        variables: u32,
        falsified: i32,
        at: usize,
        pair: Pair,
    ) -> Result<(), AllocError>
        requires falsified { IsWithin variables falsified }
        requires at { at < length (list_of self.old.lists.items falsified) }
        requires watching { IsWatching variables self.old.pairs.items self.old.lists.items }
        requires one { IsWithin variables pair.one }
        requires change { IsChange self.old.pairs.items (slice_index_or (list_of self.old.lists.items falsified) at 0)
            falsified pair }
        ensures pairs { OnOk result (self.new.pairs.items ≡ slice_set self.old.pairs.items
            (slice_index_or (list_of self.old.lists.items falsified) at 0) pair) }
        ensures watching { OnOk result (IsWatching variables self.new.pairs.items self.new.lists.items) }
        ensures shorter { OnOk result (length (list_of self.new.lists.items falsified) + 1
            ≡ length (list_of self.old.lists.items falsified)) }
        ensures rest { OnOk result ((c : ℕ) → slice_index_or (list_of self.old.lists.items falsified) at 0 ≢ c
            → Contains (drop at (list_of self.old.lists.items falsified)) c
            → Contains (drop at (list_of self.new.lists.items falsified)) c) }
    {
        let number = self.entry(falsified, at);
        self.remove(falsified, at);
        self.push(pair.one, number)?;
        self.pairs[number as usize] = pair;
        Ok(())
    }

    /// One more clause is watched, by its first two literals; or it has no other than its first one.
    pub fn add_clause(&mut self, variables: u32, literals: &[i32]) -> Result<(), AllocError>
        requires few { length self.old.pairs.items < 2 ^ 32 }
        requires some { 0 < length literals.now }
        requires once { NamesOnce literals.now }
        requires within { All (IsWithin variables) literals.now }
        requires watching { IsWatching variables self.old.pairs.items self.old.lists.items }
        ensures { OnOk result (WatchesMore variables literals.now self.old.pairs.items self.new.pairs.items
            self.new.lists.items) }
    {
        if literals.len() > 1 {
            self.add(variables, literals[0], literals[1])
        } else {
            self.add_single(variables, literals[0])
        }
    }

    /// One more clause watches these literals.
    fn add(&mut self, variables: u32, one: i32, other: i32) -> Result<(), AllocError>
        requires few { length self.old.pairs.items < 2 ^ 32 }
        requires differ { one ≢ other }
        requires one { IsWithin variables one }
        requires other { IsWithin variables other }
        requires watching { IsWatching variables self.old.pairs.items self.old.lists.items }
        ensures pairs { OnOk result (self.new.pairs.items ≡ self.old.pairs.items ++ record { one = one; other = other }
            ∷ []) }
        ensures watching { OnOk result (IsWatching variables self.new.pairs.items self.new.lists.items) }
    {
        let number = self.pairs.len() as u32;
        self.push(one, number)?;
        self.push(other, number)?;
        self.pairs.push(Pair { one, other })?;
        Ok(())
    }

    /// One more clause has this literal alone. It stands in no list.
    fn add_single(&mut self, variables: u32, literal: i32) -> Result<(), AllocError>
        requires literal { IsWithin variables literal }
        requires watching { IsWatching variables self.old.pairs.items self.old.lists.items }
        ensures pairs { OnOk result (self.new.pairs.items ≡ self.old.pairs.items
            ++ record { one = literal; other = literal } ∷ []) }
        ensures watching { OnOk result (IsWatching variables self.new.pairs.items self.new.lists.items) }
    {
        self.pairs.push(Pair {
            one: literal,
            other: literal,
        })?;
        Ok(())
    }
}

// Where the list of a literal stands.
fn spot(literal: i32) -> usize
    ensures { result ≡ spot_of literal }
{
    let variable = literal.unsigned_abs() as usize;
    if literal < 0 {
        2 * variable + 1
    } else {
        2 * variable
    }
}
