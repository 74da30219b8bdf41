//! Terms in a store of their own.

ghost use Rattle.std.specs.Prelude.{◌≡◌, ◌<◌, [], IfOk, OnOk, length, map, slice_index};
ghost use Rattle.bv_term.specs.Stores.{AreTerms};
ghost use Rattle.bv_fold.specs.Folding.{IsExtended};
ghost use Rattle.bv_fold.specs.Gathered.{AreClosedFrom, AreCopied, AreMarked, IsGathered, IsMarked, IsSameIn};
ghost use Rattle.bv_fold.specs.Steps.{AreBelow};

use crate::marks::marks_below;
use crate::operands::over_folds;
use crate::putting::put_operator;
use bv_term::Terms;
use c_tree::NoMemory;
use sqlite_items::Items;
use std::alloc::Global;

/// Terms, and the store that they stand in.
#[derive(Drop)]
pub struct Gathered {
    pub terms: Terms,
    pub numbers: Items<u32>,
}

/// Puts the wanted terms, and what stands below them, into a store of their own over the same inputs: there each has
/// the same word at every input that fits. `NoMemory` is want of memory. It goes once over the terms, down and up.
pub fn gather(alloc: Global, terms: &Terms, wanted: &[u32]) -> Result<Gathered, NoMemory>
    requires { AreBelow (length terms.now.ops) wanted.now }
    ensures { IfOk result (λ g. IsGathered terms.now wanted.now g) }
{
    let marks = marks_below(alloc, terms, wanted)?;
    let mut apart = Terms::new(alloc);
    declare_inputs(&mut apart, terms)?;
    let numbers = copy_marked(alloc, &mut apart, terms, marks.as_slice())?;
    let numbers = found(alloc, wanted, numbers.as_slice())?;
    Ok(Gathered {
        terms: apart,
        numbers,
    })
}

// Declares the inputs of a store in another one.
fn declare_inputs(apart: &mut Terms, terms: &Terms) -> Result<(), NoMemory>
    requires { apart.old.inputs ≡ [] }
    ensures inputs { OnOk result (apart.new.inputs ≡ terms.now.inputs) }
    ensures ops { apart.new.ops ≡ apart.old.ops }
{
    // There are at most 64 inputs.
    terms.len();
    for signed in terms.inputs() {
        apart.declare(*signed)?;
    }
    Ok(())
}

// The numbers of the marked terms in another store, into which they are put in order.
fn copy_marked(
    alloc: Global,
    apart: &mut Terms,
    terms: &Terms,
    marks: &[bool],
) -> Result<Items<u32>, NoMemory>
    requires inputs { apart.old.inputs ≡ terms.now.inputs }
    requires count { length marks.now ≡ length terms.now.ops }
    requires closed { AreClosedFrom terms.now.ops 0 marks.now }
    ensures count { IfOk result (λ numbers. length numbers ≡ length terms.now.ops) }
    ensures copied { IfOk result (λ numbers. AreCopied terms.now apart.new marks.now numbers) }
{
    let mut numbers = Items::new(alloc);
    for next in 0..terms.len() {
        let number = copy_next(apart, terms, marks, numbers.as_slice(), next)?;
        numbers.push(number)?;
    }
    Ok(numbers)
}

// The number of the next term in the other store, into which it is put where it is marked.
fn copy_next(
    apart: &mut Terms,
    terms: &Terms,
    marks: &[bool],
    numbers: &[u32],
    next: u32,
) -> Result<u32, NoMemory>
    requires there { next < length terms.now.ops }
    requires next { length numbers.now ≡ next }
    requires count { length marks.now ≡ length terms.now.ops }
    requires closed { AreClosedFrom terms.now.ops 0 marks.now }
    requires copied { AreCopied terms.now apart.old marks.now numbers.now }
    ensures kept { IsExtended apart.old apart.new }
    ensures same { IfOk result (λ n. IsMarked marks.now next → IsSameIn terms.now apart.new next n) }
{
    // Each operator of either store fits.
    terms.len();
    apart.len();
    if marks[next as usize] {
        put_operator(apart, over_folds(*terms.op(next), numbers))
    } else {
        Ok(0)
    }
}

// The numbers of the wanted terms, among those of all terms.
fn found(alloc: Global, wanted: &[u32], numbers: &[u32]) -> Result<Items<u32>, NoMemory>
    requires { AreBelow (length numbers.now) wanted.now }
    ensures { IfOk result (λ us. us ≡ map (slice_index numbers.now) wanted.now) }
{
    let mut found = Items::new(alloc);
    for term in wanted {
        found.push(numbers[*term as usize])?;
    }
    Ok(found)
}
