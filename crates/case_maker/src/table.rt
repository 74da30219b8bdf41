//! The table of costs of a case.

ghost use Rattle.std.specs.Prelude.{◌≡◌, ◌++◌, IfOk, OnOk};
ghost use Rattle.case_maker.specs.Lines.{joined_lines, cost_lines, table_text};

use crate::draws::Draws;
use crate::lines::{push_cost, push_line};
use std::alloc::{AllocError, Global};

/// The text of the table for so many blocks, whose costs are the next draws.
pub(crate) fn table(alloc: Global, draws: &mut Draws, blocks: u32) -> Result<Vec<u8>, AllocError>
    ensures { IfOk result (λ text. text.items ≡ table_text draws.old.state blocks) }
{
    let mut text = Vec::new(alloc);
    push_line(&mut text, b"version = 1")?;
    push_line(&mut text, b"default = 1")?;
    push_line(&mut text, b"[cost]")?;
    push_costs(&mut text, draws, blocks)?;
    Ok(text)
}

fn push_costs(text: &mut Vec<u8>, draws: &mut Draws, blocks: u32) -> Result<(), AllocError>
    ensures { OnOk result (text.new.items ≡ text.old.items ++ joined_lines (cost_lines draws.old.state blocks)) }
{
    for number in 0..blocks {
        push_cost(text, number, 1 + draws.below(20))?;
    }
    Ok(())
}
