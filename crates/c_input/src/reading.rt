//! Reading the text of an input (this project's own).

ghost use Rattle.std.specs.Prelude.{◌≡◌, ◌≤◌, ℤ, List, Some, IfOk, MatchOption, drop, length};
ghost use Rattle.std.specs.List.{prefix_len};
ghost use Rattle.std.specs.Fmt.{signed_decimal};
ghost use Rattle.c_input.specs.InputTexts as spec;
ghost use Rattle.c_input.specs.InputTexts.{HasText};
ghost use Rattle.c_input.specs.Reading as words;
ghost use Rattle.c_input.specs.Reading.{IsSmall, NumberBehind, Suits};

use crate::fitting::fits;
use crate::leads::input_leads;
use crate::writing::text_of;
use c_tree::{Input, NoMemory, Program};
use sqlite_items::Items;
use std::alloc::Global;
use std::str;

/// The fitting input that has this text, or None where there is none. `NoMemory` is want of memory.
pub fn read_input(alloc: Global, program: &Program, text: &str) -> Result<Option<Input>, NoMemory>
    ensures input { IfOk result (λ o. spec.IsInputOf program.now text.now o) }
{
    let leads = input_leads(alloc, program)?;
    match numbers_in(alloc, leads.as_slice(), text.as_bytes())? {
        None => Ok(None),
        Some(values) => checked(alloc, program, text.as_bytes(), Input { values }),
    }
}

// The input, if it fits and has this text.
fn checked(
    alloc: Global,
    program: &Program,
    text: &[u8],
    input: Input,
) -> Result<Option<Input>, NoMemory>
    ensures { IfOk result (λ o. MatchOption o (¬ (HasText program.now text.now input)) (λ i. (i ≡ input)
        × HasText program.now text.now input)) }
{
    if !fits(program, &input) {
        return Ok(None);
    }
    let written = text_of(alloc, program, &input)?;
    if written.as_slice() == text {
        Ok(Some(input))
    } else {
        Ok(None)
    }
}

// The numbers that stand behind what should stand before each, whatever stands there; None where there is no such
// number.
fn numbers_in(
    alloc: Global,
    leads: &[Items<u8>],
    text: &[u8],
) -> Result<Option<Items<i64>>, NoMemory>
    ensures { IfOk result (λ o. (zs : List ℤ) → Suits leads.now zs → text.now ≡ drop 1 (spec.led_numbers leads.now zs)
        → o ≡ Some zs) }
{
    let mut values = Items::new(alloc);
    let mut rest = text;
    for lead in leads {
        let Some((number, more)) = number_behind(lead.len().saturating_sub(1), rest) else {
            return Ok(None);
        };
        values.push(number)?;
        rest = more;
    }
    Ok(Some(values))
}

// The number that stands behind so many bytes, and what stands behind the byte after it.
fn number_behind(count: usize, text: &[u8]) -> Option<(i64, &[u8])>
    ensures { NumberBehind count text.now (λ z more. MatchOption result ⊥ (λ r. (r.0 ≡ z) × (r.1.now ≡ drop 1 more))) }
{
    let behind = after(count, text);
    let end = number_len(behind);
    let number = number_of(&behind[..end])?;
    Some((number, after(end + 1, behind)))
}

// What stands behind so many bytes.
fn after(count: usize, bytes: &[u8]) -> &[u8]
    ensures { result.now ≡ drop count bytes.now }
{
    &bytes[count.min(bytes.len())..]
}

// How many bytes stand before the first blank or comma.
fn number_len(bytes: &[u8]) -> usize
    ensures value { result ≡ prefix_len words.is_entry_byte bytes.now }
    ensures within { result ≤ length bytes.now }
{
    for (i, byte) in bytes.iter().enumerate() {
        if !goes_on(*byte) {
            return i;
        }
    }
    bytes.len()
}

// Whether a byte is neither a blank nor a comma.
fn goes_on(byte: u8) -> bool
    ensures { result ≡ words.is_entry_byte byte }
{
    byte != b' ' && byte != b','
}

// The number that these bytes write, perhaps with more zeros or another sign than it is written with.
fn number_of(bytes: &[u8]) -> Option<i64>
    ensures { (z : ℤ) → IsSmall z → bytes.now ≡ signed_decimal z → result ≡ Some z }
{
    str::from_utf8(bytes).ok()?.parse::<i64>().ok()
}
