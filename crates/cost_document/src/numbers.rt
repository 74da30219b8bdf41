//! Which numbers of a function have an entry. Keys are cut behind the name of the function, so no name of a number is
//! written.

ghost use Rattle.std.specs.Prelude.{◌≡◌, ◌≢◌, ◌<◌, ◌^◌, ◌++◌, ℕ, List, length, string_bytes, IfOk, MatchOption, OnOk, replicate, false};
ghost use Rattle.toml.specs.View.{table_view};
ghost use Rattle.cost_document.specs.Documents.{entries, TellsNumbers};
ghost use Rattle.cost_document.specs.Marking.{IsNumberOfKey, marked};

use crate::document::cost_table;
use std::alloc::{AllocError, Global};
use text_lines::number_of;
use toml::Table;

/// For each number below `count`, whether the table `cost` has an entry of the name `function:number`.
pub fn numbers_held(
    alloc: Global,
    document: &Table,
    function: &[u8],
    count: usize,
) -> Result<Vec<bool>, AllocError>
    ensures { IfOk result (λ held. TellsNumbers (entries (table_view document.now)) function.now count held.items) }
{
    let mut held = vec![in alloc; false; count]?;
    let Some(entries) = cost_table(document) else {
        return Ok(held);
    };
    let Ok(function) = std::str::from_utf8(function) else {
        return Ok(held);
    };
    mark_numbers(alloc, entries, function, held.as_mut_slice())?;
    Ok(held)
}

// Marks each number whose name is a key.
fn mark_numbers(
    alloc: Global,
    entries: &Table,
    function: &str,
    held: &mut [bool],
) -> Result<(), AllocError>
    requires unmarked { held.old ≡ replicate (length held.old) false }
    requires few { length held.old < 2 ^ 64 }
    ensures { OnOk result (TellsNumbers (table_view entries.now) function.now (length held.old) held.new) }
{
    let first = text_and(alloc, function, ":")?;
    let past = text_and(alloc, function, ";")?;
    for (key, _value) in entries.range(first..past) {
        mark(held, number_in(key.as_bytes(), function.as_bytes()));
    }
    Ok(())
}

// Marks a number, where there is one and it has a place.
fn mark(held: &mut [bool], number: Option<usize>)
    ensures { held.new ≡ marked held.old number }
{
    let Some(number) = number else {
        return;
    };
    if number < held.len() {
        held[number] = true;
    }
}

// A text, and another behind it.
fn text_and(alloc: Global, text: &str, end: &str) -> Result<String, AllocError>
    ensures { IfOk result (λ whole. string_bytes whole ≡ text.now ++ end.now) }
{
    let mut whole = String::new(alloc);
    whole.push_str(text)?;
    whole.push_str(end)?;
    Ok(whole)
}

// The number whose name the key is, where it is one of this function.
fn number_in(key: &[u8], function: &[u8]) -> Option<usize>
    ensures { IsNumberOfKey key.now function.now result }
{
    let Some(numbered) = behind(key, function) else {
        return None;
    };
    let Some(digits) = behind(numbered, b":") else {
        return None;
    };
    let Some(number) = number_of(digits) else {
        return None;
    };
    usize::try_from(number).ok()
}

// What stands behind the front, where the bytes begin with it.
fn behind<'a>(bytes: &'a [u8], front: &[u8]) -> Option<&'a [u8]>
    ensures { MatchOption result ((rest : List ℕ) → bytes.now ≢ front.now ++ rest) (λ rest. bytes.now ≡ front.now ++ rest.now) }
{
    bytes.strip_prefix(front)
}
