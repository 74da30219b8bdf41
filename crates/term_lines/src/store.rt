//! Stores of terms that are made from texts.

ghost use Rattle.std.specs.Prelude.{◌<◌, length};
ghost use Rattle.bv_term.specs.Stores.{FitsOp};

use crate::op::op_of;
use crate::words::numbers;
use crate::wrong::Wrong;
use bv_term::{Op, Terms};
use c_tree::Input;
use sqlite_items::Items;
use std::alloc::Global;

/// Declares an input for each word of a text, `signed` or not, and gives their numbers.
pub fn declared(alloc: Global, terms: &mut Terms, kinds: &str) -> Result<Vec<u32>, Wrong> {
    let mut found = Vec::new(alloc);
    for kind in kinds.split_ascii_whitespace() {
        if terms.inputs().len() >= 64 {
            return Err(Wrong::NoCase);
        }
        found.push(terms.declare(kind == "signed")?)?;
    }
    Ok(found)
}

// Puts an operator into a store that is not full.
fn put(terms: &mut Terms, op: Op) -> Result<u32, Wrong>
    requires { FitsOp (length terms.old.inputs) (length terms.old.ops) op }
{
    if terms.len() == u32::MAX {
        return Err(Wrong::NoMemory);
    }
    Ok(terms.put(op)?)
}

/// Puts the operator of this name over these operands, or the input of this number.
pub fn put_named(terms: &mut Terms, name: &str, operands: &[u32]) -> Result<u32, Wrong> {
    match op_of(name, operands, terms.len()) {
        Some(op) => put(terms, op),
        None => put_input(terms, name, operands),
    }
}

fn put_input(terms: &mut Terms, name: &str, operands: &[u32]) -> Result<u32, Wrong> {
    match operands {
        [input] if name == "input" && (*input as usize) < terms.inputs().len() => {
            put(terms, Op::Input(*input))
        }
        _ => Err(Wrong::NoCase),
    }
}

// Puts one term, the name of an operator and its operands.
fn put_term(alloc: Global, terms: &mut Terms, text: &str) -> Result<u32, Wrong> {
    let (name, operands) = text.split_once(' ').ok_or(Wrong::NoCase)?;
    let operands = numbers(alloc, operands)?;
    put_named(terms, name, operands.as_slice())
}

/// Puts the terms of a text with `; ` between them, and gives their numbers.
pub fn put_each(alloc: Global, terms: &mut Terms, text: &str) -> Result<Vec<u32>, Wrong> {
    let mut found = Vec::new(alloc);
    for part in text.split("; ") {
        found.push(put_term(alloc, terms, part)?)?;
    }
    Ok(found)
}

// Puts words as constants, and gives their numbers.
fn constants(alloc: Global, terms: &mut Terms, words: &[u32]) -> Result<Vec<u32>, Wrong> {
    let mut found = Vec::new(alloc);
    for word in words {
        found.push(put(terms, Op::Const(*word))?)?;
    }
    Ok(found)
}

// Puts the operator of this name over words.
fn over_list(alloc: Global, terms: &mut Terms, name: &str, text: &str) -> Result<u32, Wrong> {
    let words = numbers(alloc, text)?;
    let operands = constants(alloc, terms, words.as_slice())?;
    put_named(terms, name, operands.as_slice())
}

/// Puts the operator of this name over each list of words, with `; ` between the lists, and gives the numbers.
pub fn over_words(
    alloc: Global,
    terms: &mut Terms,
    name: &str,
    lists: &str,
) -> Result<Vec<u32>, Wrong> {
    let mut found = Vec::new(alloc);
    for list in lists.split("; ") {
        found.push(over_list(alloc, terms, name, list)?)?;
    }
    Ok(found)
}

/// The words of the terms of a store without inputs.
pub fn words_without_inputs(alloc: Global, terms: &Terms) -> Result<Vec<u32>, Wrong> {
    if !terms.inputs().is_empty() {
        return Err(Wrong::NoCase);
    }
    let none = Input {
        values: Items::new(alloc),
    };
    Ok(terms.values(&none)?)
}
