//! The lines of a made case, each written at the end of a text.

ghost use Rattle.std.specs.Prelude.{◌≡◌, ◌++◌, decimal, OnOk};
ghost use Rattle.case_maker.specs.Segments.{name_of};
ghost use Rattle.case_maker.specs.Lines.{ended_line, if_line, if_else_line, pragma_line, for_line, cost_line};

use crate::segment::Variable;
use itoa::Buffer;
use std::alloc::AllocError;

/// The line of an `if`.
pub(crate) fn push_if(
    text: &mut Vec<u8>,
    variable: Variable,
    constant: u16,
) -> Result<(), AllocError>
    ensures { OnOk result (text.new.items ≡ text.old.items ++ ended_line (if_line variable constant)) }
{
    push_around(
        text,
        b"    if (",
        variable,
        b" > ",
        constant,
        b"u) r = r + 1u;",
    )
}

/// The line of an `if` with `else`.
pub(crate) fn push_if_else(
    text: &mut Vec<u8>,
    variable: Variable,
    constant: u16,
) -> Result<(), AllocError>
    ensures { OnOk result (text.new.items ≡ text.old.items ++ ended_line (if_else_line variable constant)) }
{
    push_around(
        text,
        b"    if (",
        variable,
        b" == ",
        constant,
        b"u) r = r + 2u; else r = r ^ 1u;",
    )
}

/// The line of a `for`.
pub(crate) fn push_for(text: &mut Vec<u8>, variable: Variable, bound: u16) -> Result<(), AllocError>
    ensures { OnOk result (text.new.items ≡ text.old.items ++ ended_line (for_line variable bound)) }
{
    push_around(
        text,
        b"    for (i = 0u; i < (",
        variable,
        b" & ",
        bound,
        b"u); i++) r = r + 3u;",
    )
}

// A line in which a variable and a number stand.
fn push_around(
    text: &mut Vec<u8>,
    before: &[u8],
    variable: Variable,
    between: &[u8],
    number: u16,
    after: &[u8],
) -> Result<(), AllocError>
    ensures { OnOk result (text.new.items ≡ text.old.items ++ ended_line (before.now ++ name_of variable ++ between.now
        ++ decimal number ++ after.now)) }
{
    text.extend_from_slice(before)?;
    text.extend_from_slice(variable.name())?;
    text.extend_from_slice(between)?;
    push_number(text, u32::from(number))?;
    push_line(text, after)
}

/// The line that gives the bound of the loop below it.
pub(crate) fn push_bound(text: &mut Vec<u8>, bound: u16) -> Result<(), AllocError>
    ensures { OnOk result (text.new.items ≡ text.old.items ++ ended_line (pragma_line bound)) }
{
    text.extend_from_slice(b"#pragma loopbound ")?;
    push_number(text, u32::from(bound))?;
    text.extend_from_slice(b"\n")
}

/// The line that gives the cost of a block of `main`.
pub(crate) fn push_cost(text: &mut Vec<u8>, number: u32, cost: u16) -> Result<(), AllocError>
    ensures { OnOk result (text.new.items ≡ text.old.items ++ ended_line (cost_line number cost)) }
{
    text.extend_from_slice(b"\"main:")?;
    push_number(text, number)?;
    text.extend_from_slice(b"\" = ")?;
    push_number(text, u32::from(cost))?;
    text.extend_from_slice(b"\n")
}

/// A line, or the rest of one, and its line feed.
pub(crate) fn push_line(text: &mut Vec<u8>, line: &[u8]) -> Result<(), AllocError>
    ensures { OnOk result (text.new.items ≡ text.old.items ++ ended_line line.now) }
{
    text.extend_from_slice(line)?;
    text.extend_from_slice(b"\n")
}

fn push_number(text: &mut Vec<u8>, number: u32) -> Result<(), AllocError>
    ensures { OnOk result (text.new.items ≡ text.old.items ++ decimal number) }
{
    let mut buffer = Buffer::new();
    text.extend_from_slice(buffer.format(number).as_bytes())
}
