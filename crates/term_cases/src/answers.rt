//! The answers to the cases.

use crate::inputs::input_words;
use bv_term::Terms;
use case_lines::{is_heading, parts};
use std::alloc::{AllocError, Global};
use term_lines::{Wrong, declared, over_words, put_each, words_without_inputs};

/// What is written for a line: a heading as it is, and for a case its answer.
pub(crate) fn told(alloc: Global, line: &str) -> Result<String, AllocError> {
    if is_heading(line) {
        return line.to_string(alloc);
    }
    match answer(alloc, line) {
        Ok(text) => Ok(text),
        Err(wrong) => wrong.told(alloc),
    }
}

fn answer(alloc: Global, line: &str) -> Result<String, Wrong> {
    let parts = parts(alloc, line)?;
    match parts.as_slice() {
        ["declare", kinds] => declarations(alloc, kinds),
        ["put", terms] => puts(alloc, terms),
        ["words", kind, operands] => words(alloc, kind, operands),
        ["inputs", signed, unsigned] => inputs(alloc, signed, unsigned),
        _ => Err(Wrong::NoCase),
    }
}

fn declarations(alloc: Global, kinds: &str) -> Result<String, Wrong> {
    let mut terms = Terms::new(alloc);
    let numbers = declared(alloc, &mut terms, kinds)?;
    let inputs = terms.inputs();
    Ok(format!(in alloc; "{numbers:?} {inputs:?}")?)
}

fn puts(alloc: Global, text: &str) -> Result<String, Wrong> {
    let mut terms = Terms::new(alloc);
    let numbers = put_each(alloc, &mut terms, text)?;
    let ops = operators(alloc, &terms)?;
    let words = words_without_inputs(alloc, &terms)?;
    Ok(format!(in alloc; "{numbers:?} {ops}{words:?}")?)
}

// The operators of a store, in order.
fn operators(alloc: Global, terms: &Terms) -> Result<String, Wrong> {
    let mut text = String::new(alloc);
    for t in 0..terms.len() {
        let op = terms.op(t);
        let told = format!(in alloc; "{op:?} ")?;
        text.push_str(told.as_str())?;
    }
    Ok(text)
}

fn words(alloc: Global, kind: &str, lists: &str) -> Result<String, Wrong> {
    let mut terms = Terms::new(alloc);
    let numbers = over_words(alloc, &mut terms, kind, lists)?;
    let words = words_without_inputs(alloc, &terms)?;
    let mut text = String::new(alloc);
    for number in numbers {
        let word = *words.get(number as usize).ok_or(Wrong::NoCase)?;
        let told = format!(in alloc; "{word} ")?;
        text.push_str(told.as_str())?;
    }
    Ok(text)
}

fn inputs(alloc: Global, signed: &str, unsigned: &str) -> Result<String, Wrong> {
    let signed = signed.parse::<i32>().ok().ok_or(Wrong::NoCase)?;
    let unsigned = unsigned.parse::<u32>().ok().ok_or(Wrong::NoCase)?;
    let words = input_words(alloc, signed, unsigned)?;
    Ok(format!(in alloc; "{words:?}")?)
}
