//! The gates of a formula, in order.

use cnf_form::Cnf;
use std::alloc::{AllocError, Global};

/// The values of the variables where the inputs have these words: those of gates come from the clauses that begin with
/// their variable, since one is true where the other literals of such a clause are false, and else false.
pub(crate) fn values_at(alloc: Global, cnf: &Cnf, words: &[u32]) -> Result<Vec<bool>, AllocError> {
    let mut values = Vec::new(alloc);
    values.push(true)?;
    for word in words {
        push_bits(&mut values, *word)?;
    }
    for _ in values.len()..cnf.variables as usize {
        values.push(false)?;
    }
    for clause in cnf.clauses() {
        settle(values.as_mut_slice(), clause.literals());
    }
    Ok(values)
}

// The bits of a word, lowest first, behind other values.
fn push_bits(values: &mut Vec<bool>, word: u32) -> Result<(), AllocError> {
    let mut rest = word;
    for _ in 0..32u32 {
        values.push(rest % 2 == 1)?;
        rest /= 2;
    }
    Ok(())
}

// Makes the first literal of a clause true where it is a variable and the others are false.
fn settle(values: &mut [bool], literals: &[i32]) {
    if let [first, others @ ..] = literals {
        if *first > 0 && *first as usize <= values.len() && !some_true(values, others) {
            values[*first as usize - 1] = true;
        }
    }
}

/// Whether the values make a literal of each clause true.
pub(crate) fn satisfies(values: &[bool], cnf: &Cnf) -> bool {
    cnf.clauses()
        .iter()
        .all(|clause| some_true(values, clause.literals()))
}

fn some_true(values: &[bool], literals: &[i32]) -> bool {
    literals.iter().any(|literal| is_true(values, *literal))
}

fn is_true(values: &[bool], literal: i32) -> bool {
    let variable = literal.unsigned_abs() as usize;
    0 < variable && variable <= values.len() && values[variable - 1] == (literal > 0)
}
