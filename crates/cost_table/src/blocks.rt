//! How many blocks a function has, and their names.

ghost use Rattle.std.specs.Prelude.{◌≡◌, false, IfOk, IfSome};
ghost use Rattle.c_tree.specs.Meaning.Blocks.{list_blocks};
ghost use Rattle.cost_table.specs.Tables.{block_name};

use c_semantics::list_blocks;
use c_tree::{Func, Name};
use itoa::Buffer;
use std::alloc::{AllocError, Global};

/// How many blocks a function has. None where a `usize` does not hold their number.
pub(crate) fn block_count(func: &Func) -> Option<usize>
    ensures { IfSome result (λ count. count ≡ list_blocks func.now.body false) }
{
    list_blocks(func.body.as_slice())
}

/// The name of a block: `function:number`.
pub(crate) fn block_name(
    alloc: Global,
    function: &Name,
    number: usize,
) -> Result<Vec<u8>, AllocError>
    ensures { IfOk result (λ name. name.items ≡ block_name function.now number) }
{
    let mut buffer = Buffer::new();
    let mut name = Vec::from_slice(alloc, function.as_slice())?;
    name.extend_from_slice(b":")?;
    name.extend_from_slice(buffer.format(number).as_bytes())?;
    Ok(name)
}
