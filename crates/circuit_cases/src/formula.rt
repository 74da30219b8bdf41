//! Formulas that are made from texts.

ghost use Rattle.std.specs.Prelude.{◌≡◌, ◌<◌, ◌↔◌, All, IsTrue, IfOk, length};

use bit_blast::{Blasted, blast, decode};
use bv_term::Terms;
use c_tree::Input;
use cnf_form::Assignment;
use sqlite_items::Items;
use std::alloc::Global;
use term_lines::{Wrong, declared, numbers, put_each, put_named};

/// The formula of conditions over terms and inputs.
pub(crate) fn blasted(
    alloc: Global,
    inputs: &str,
    text: &str,
    conditions: &str,
) -> Result<Blasted, Wrong> {
    let terms = terms_of(alloc, inputs, text)?;
    let conditions = numbers(alloc, conditions)?;
    blasted_of(alloc, &terms, conditions.as_slice())
}

/// A store of terms over inputs.
pub(crate) fn terms_of(alloc: Global, inputs: &str, text: &str) -> Result<Terms, Wrong> {
    let mut terms = Terms::new(alloc);
    declared(alloc, &mut terms, inputs)?;
    put_each(alloc, &mut terms, text)?;
    Ok(terms)
}

/// The formula that the operator of this name, over so many inputs but the last, equals the last.
pub(crate) fn compared(alloc: Global, name: &str, inputs: usize) -> Result<Blasted, Wrong> {
    let mut terms = Terms::new(alloc);
    let mut operands = Vec::new(alloc);
    for number in 0..inputs {
        declared(alloc, &mut terms, "unsigned")?;
        let input = [u32::try_from(number).ok().ok_or(Wrong::NoCase)?];
        operands.push(put_named(&mut terms, "input", input.as_slice())?)?;
    }
    let last = operands.pop().ok_or(Wrong::NoCase)?;
    let term = put_named(&mut terms, name, operands.as_slice())?;
    let both = [term, last];
    let equal = put_named(&mut terms, "eq", both.as_slice())?;
    let conditions = [equal];
    blasted_of(alloc, &terms, conditions.as_slice())
}

fn blasted_of(alloc: Global, terms: &Terms, conditions: &[u32]) -> Result<Blasted, Wrong> {
    if are_terms(terms, conditions) {
        Ok(blast(alloc, terms, conditions)?)
    } else {
        Err(Wrong::NoCase)
    }
}

/// Whether each of these is the number of a term.
pub(crate) fn are_terms(terms: &Terms, numbers: &[u32]) -> bool
    ensures { IsTrue result ↔ All (λ t. t < length terms.now.ops) numbers.now }
{
    let count = terms.len();
    numbers.iter().all(|number| *number < count)
}

/// The numbers of the input that an assignment says.
pub(crate) fn decoded(
    alloc: Global,
    blasted: &Blasted,
    assignment: &Assignment,
) -> Result<Vec<i64>, Wrong> {
    if assignment.values().len() != blasted.cnf().variables as usize {
        return Err(Wrong::NoCase);
    }
    let mut input = zeros(alloc, blasted.inputs.len())?;
    decode(blasted, assignment, &mut input);
    Ok(Vec::from_slice(alloc, input.values.as_slice())?)
}

/// An input of so many zeros.
pub(crate) fn zeros(alloc: Global, count: usize) -> Result<Input, Wrong>
    ensures { IfOk result (λ input. length input.values ≡ count) }
{
    let values = vec![in alloc; 0i64; count]?;
    Ok(Input {
        values: Items::from_vec(values),
    })
}
