//! The words of inputs.

use bv_term::{Op, Terms};
use c_tree::Input;
use sqlite_items::Items;
use std::alloc::Global;
use term_lines::Wrong;

/// The words of a signed and of an unsigned input.
pub(crate) fn input_words(alloc: Global, signed: i32, unsigned: u32) -> Result<Vec<u32>, Wrong> {
    let mut terms = Terms::new(alloc);
    let first = terms.declare(true)?;
    let second = terms.declare(false)?;
    terms.put(Op::Input(first))?;
    terms.put(Op::Input(second))?;
    let numbers = [i64::from(signed), i64::from(unsigned)];
    let input = Input {
        values: Items::from_slice(alloc, numbers.as_slice())?,
    };
    Ok(terms.values(&input)?)
}
