//! What the run of a program on an input starts with (C11 6.7.9, 6.9.1; the order of the inputs is this project's own).

ghost use Rattle.std.specs.Prelude.{◌≡◌, Some, IsTrue, IfOk, drop, length, slice_get};
ghost use Rattle.c_tree.specs.Meaning.Runs as spec;
ghost use Rattle.c_tree.specs.Keeping.WellFormed.{WellFormedGlobals};

use crate::inputs::{arguments, entry_types, global_slots};
use c_tree::{Func, Input, NoMemory, Program, Slot, Value};
use sqlite_items::Items;
use std::alloc::Global;

/// What a run starts with.
#[derive(Drop)]
pub struct Start {
    /// The arguments of the entry function, before they are converted to the types of its parameters.
    pub arguments: Items<Value>,
    /// The slots of the globals, in order of declaration.
    pub globals: Vec<Slot>,
}

/// What the run of a program on an input that fits it starts with: the first numbers are the arguments of the entry
/// function, and the others the values of the `extern` variables (C11 6.7.9). `NoMemory` is want of memory.
pub fn start_of(
    alloc: Global,
    program: &Program,
    entry: &Func,
    input: &Input,
) -> Result<Start, NoMemory>
    requires formed { WellFormedGlobals program.now.globals }
    requires entry { slice_get program.now.funcs program.now.entry ≡ Some entry.now }
    requires fits { IsTrue (spec.fits program.now input.now) }
    ensures arguments { IfOk result (λ s. s.arguments
        ≡ spec.arguments (spec.param_types entry.now.params entry.now.locals) input.now.values) }
    ensures globals { IfOk result (λ s. s.globals.items ≡ spec.global_slots program.now.globals
        (drop (length (spec.param_types entry.now.params entry.now.locals)) input.now.values)) }
{
    let values = input.values.as_slice();
    let types = entry_types(alloc, entry)?;
    let arguments = arguments(alloc, types.as_slice(), values)?;
    let (_, rest) = values.split_at(types.len());
    let globals = global_slots(alloc, program.globals.as_slice(), rest)?;
    Ok(Start { arguments, globals })
}
