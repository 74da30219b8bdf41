//! Making a case.

ghost use Rattle.std.specs.Prelude.{◌≡◌, ◌≤◌, IfOk};
ghost use Rattle.case_maker.specs.Case.{Case};

use crate::draws::Draws;
use crate::no_memory::NoMemory;
use crate::program::{count_blocks, draw_segments, program};
use crate::table::table;
use std::alloc::{AllocError, Global};

/// The case of this number and size: the text of its program, and the text of its table of costs. The size is the
/// number of the program's segments, from 1 to 64.
pub fn make(alloc: Global, case: u16, size: u32) -> Result<(Vec<u8>, Vec<u8>), NoMemory>
    requires some { 1 ≤ size }
    requires few { size ≤ 64 }
    ensures { IfOk result (λ made. Case case size made.0.items made.1.items) }
{
    texts(alloc, case, size).map_err(|_| NoMemory)
}

fn texts(alloc: Global, case: u16, size: u32) -> Result<(Vec<u8>, Vec<u8>), AllocError>
    requires { size ≤ 64 }
    ensures { IfOk result (λ made. Case case size made.0.items made.1.items) }
{
    let mut draws = Draws::new(case);
    let segments = draw_segments(alloc, &mut draws, size)?;
    let blocks = count_blocks(segments.as_slice());
    let program = program(alloc, segments.as_slice())?;
    let table = table(alloc, &mut draws, blocks)?;
    Ok((program, table))
}
