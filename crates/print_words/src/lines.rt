//! Lines that have no expression, each written at the end of a text.

ghost use Rattle.std.specs.Prelude.{◌≡◌, ◌++◌, OnOk};
ghost use Rattle.print_laws.specs.PrintedStatements.{line, bound_text};

use crate::parts::{push, push_decimal, push_margin};
use c_tree::NoMemory;

/// A line at a level.
#[tactic(auto, unfolding(print_laws::specs::PrintedStatements::line))]
pub fn push_line(text: &mut Vec<u8>, level: usize, bytes: &[u8]) -> Result<(), NoMemory>
    ensures { OnOk result (text.new.items ≡ text.old.items ++ line level bytes.now) }
{
    push_margin(text, level)?;
    push(text, bytes)?;
    push(text, b"\n")
}

/// The line of a loop's bound, which stands at its beginning: no margin is before it.
#[tactic(auto, unfolding(print_laws::specs::PrintedStatements::bound_text))]
pub fn push_bound(text: &mut Vec<u8>, bound: u32) -> Result<(), NoMemory>
    ensures { OnOk result (text.new.items ≡ text.old.items ++ bound_text bound) }
{
    push(text, b"#pragma loopbound ")?;
    push_decimal(text, u64::from(bound))?;
    push(text, b"\n")
}
