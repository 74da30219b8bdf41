//! Folds that are remembered from one call to the next.

ghost use Rattle.std.specs.Prelude.{◌≡◌, ◌<◌, ◌≤◌, ◌+◌, IfOk, OnOk, length};
ghost use Rattle.bv_term.specs.Stores.{Terms as SeenTerms};
ghost use Rattle.bv_fold.specs.Folding.{IsExtended, IsFold};
ghost use Rattle.bv_fold.specs.Remembered.{IsRemembered};

use crate::step::fold_next;
use crate::zeros::words_at_zeros;
use bv_term::Terms;
use c_tree::NoMemory;
use sqlite_items::Items;
use std::alloc::Global;
use std::marker::Model;

/// What was folded of one store, so that each term is folded once.
#[derive(Drop)]
pub struct Folds {
    alloc: Global,
    folds: Items<u32>,
    words: Items<u32>,
}

impl Model for Folds {
    ghost use Rattle.bv_fold.specs.Remembered.{Remembered};

    ghost Value = { Remembered };

    ghost view = { λ f. record { folds = f.folds; words = f.words } };
}

impl Folds {
    /// Nothing is folded yet, of whatever store.
    pub fn new(alloc: Global) -> Folds
        ensures { (terms : SeenTerms) → IsRemembered terms result }
    {
        Folds {
            alloc,
            folds: Items::new(alloc),
            words: Items::new(alloc),
        }
    }

    /// A term of the same value at every input that fits the store, which is a constant where no input stands below the
    /// term. Terms that were there keep their numbers. `NoMemory` is want of memory, also where the store is full; then
    /// too only further terms may stand in it. It goes on from the terms that were folded before.
    pub fn fold(&mut self, terms: &mut Terms, term: u32) -> Result<u32, NoMemory>
        requires there { term < length terms.old.ops }
        requires remembered { IsRemembered terms.old self.old }
        ensures kept { IsExtended terms.old terms.new }
        ensures remembered { IsRemembered terms.new self.new }
        ensures folded { IfOk result (λ t. IsFold terms.old terms.new term t) }
    {
        if (term as usize) < self.folds.len() {
            return Ok(self.folds.as_slice()[term as usize]);
        }
        self.go_on(terms, term)?;
        Ok(self.folds.as_slice()[term as usize])
    }

    // Folds the terms that are not yet folded, up to this one.
    fn go_on(&mut self, terms: &mut Terms, term: u32) -> Result<(), NoMemory>
        requires there { term < length terms.old.ops }
        requires new { length self.old.folds ≤ term }
        requires remembered { IsRemembered terms.old self.old }
        ensures kept { IsExtended terms.old terms.new }
        ensures remembered { IsRemembered terms.new self.new }
        ensures reached { OnOk result (term < length self.new.folds) }
    {
        self.read(terms, term)?;
        // There are fewer than 2^32 terms.
        terms.len();
        let first = self.folds.len() as u32;
        for next in first..term + 1 {
            self.fold_one(terms, next)?;
        }
        Ok(())
    }

    // Computes the words of the terms, where they do not reach to this one.
    fn read(&mut self, terms: &Terms, term: u32) -> Result<(), NoMemory>
        requires there { term < length terms.now.ops }
        requires remembered { IsRemembered terms.now self.old }
        ensures remembered { IsRemembered terms.now self.new }
        ensures reached { OnOk result (term < length self.new.words) }
        ensures kept { self.new.folds ≡ self.old.folds }
    {
        if self.words.len() <= term as usize {
            let words = words_at_zeros(self.alloc, terms)?;
            self.words = Items::from_vec(words);
        }
        Ok(())
    }

    // Folds the next term.
    fn fold_one(&mut self, terms: &mut Terms, next: u32) -> Result<(), NoMemory>
        requires there { next < length terms.old.ops }
        requires next { length self.old.folds ≡ next }
        requires words { next < length self.old.words }
        requires remembered { IsRemembered terms.old self.old }
        ensures kept { IsExtended terms.old terms.new }
        ensures remembered { IsRemembered terms.new self.new }
        ensures words { self.new.words ≡ self.old.words }
        ensures one { OnOk result (length self.new.folds ≡ next + 1) }
    {
        let number = fold_next(terms, self.words.as_slice(), self.folds.as_slice(), next)?;
        self.folds.push(number)?;
        Ok(())
    }
}
