//! Writing the text of an input (this project's own).

ghost use Rattle.std.specs.Prelude.{◌≡◌, ◌++◌, IsTrue, IfOk, OnOk, drop};
ghost use Rattle.std.specs.Fmt.{signed_decimal};
ghost use Rattle.c_tree.specs.Meaning.Runs.{fits};
ghost use Rattle.c_input.specs.InputTexts as spec;

use crate::leads::input_leads;
use c_tree::{Input, NoMemory, Program};
use itoa::Buffer;
use sqlite_items::{Items, at};
use std::alloc::{AllocError, Global};

/// The text of an input that fits: the entry function's parameters in order and then the `extern` variables in order of
/// declaration, with a blank between each two; of each its name, `=` and its numbers in decimal, those of an array
/// separated by commas. It is empty for no inputs. `NoMemory` is want of memory.
pub fn input_text(alloc: Global, program: &Program, input: &Input) -> Result<Vec<u8>, NoMemory>
    requires fits { IsTrue (fits program.now input.now) }
    ensures text { IfOk result (λ t. t.items ≡ spec.input_text program.now input.now) }
{
    text_of(alloc, program, input)
}

/// The same text, of any input: the numbers behind what stands before each, as many as there are of both.
pub(crate) fn text_of(alloc: Global, program: &Program, input: &Input) -> Result<Vec<u8>, NoMemory>
    ensures { IfOk result (λ t. t.items ≡ spec.input_text program.now input.now) }
{
    let leads = input_leads(alloc, program)?;
    let mut text = led(alloc, leads.as_slice(), input.values.as_slice())?;
    drop_first(&mut text);
    Ok(text)
}

// Drops the first byte, if there is one.
fn drop_first(text: &mut Vec<u8>)
    ensures { text.new.items ≡ drop 1 text.old.items }
{
    if !text.is_empty() {
        text.remove(0);
    }
}

// Each number behind what stands before it.
fn led(alloc: Global, leads: &[Items<u8>], numbers: &[i64]) -> Result<Vec<u8>, NoMemory>
    ensures { IfOk result (λ t. t.items ≡ spec.led_numbers leads.now numbers.now) }
{
    let mut text = Vec::new(alloc);
    for (i, lead) in leads.iter().enumerate() {
        let Some(number) = at(numbers, i) else {
            return Ok(text);
        };
        push_number(&mut text, lead.as_slice(), number)?;
    }
    Ok(text)
}

// Pushes a number behind what stands before it.
fn push_number(text: &mut Vec<u8>, lead: &[u8], number: &i64) -> Result<(), AllocError>
    ensures { OnOk result (text.new.items ≡ text.old.items ++ lead.now ++ signed_decimal number.now) }
{
    let mut buffer = Buffer::new();
    text.extend_from_slice(lead)?;
    text.extend_from_slice(buffer.format(*number).as_bytes())
}
