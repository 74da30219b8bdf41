//! The slots of a function's locals as a call begins (C11 6.5.2.2, 6.7.9).

ghost use Rattle.std.specs.Prelude.{◌≡◌, option_copied, IfOk};
ghost use Rattle.c_tree.specs.Meaning.Statements as spec;
ghost use Rattle.c_tree.specs.Meaning.Runs as runs;
ghost use Rattle.c_ways.specs.Slots as words;

use crate::arrays::padded;
use crate::memory::Memory;
use c_semantics::convert;
use c_tree::{Local, NoMemory, Slot, Target, Ty, Value};
use std::alloc::Global;

/// A call that initialises a local makes it unset before its arguments are evaluated.
pub fn unset_target(target: Target, memory: &mut Memory)
    ensures { memory.new ≡ spec.unset_target target memory.old }
{
    match target {
        Target::Nothing => (),
        Target::Assign(_) => (),
        Target::Declare(local) => memory.unset(local),
    }
}

// A local that is no parameter, as a call begins.
fn fresh(alloc: Global, ty: Ty, length: Option<u32>) -> Result<Slot, NoMemory>
    ensures { IfOk result (λ x. x ≡ runs.fresh ty length) }
{
    match length {
        None => Ok(Slot::Unset(ty)),
        Some(n) => Ok(Slot::Numbers(ty, padded(alloc, ty, n as usize, &[])?)),
    }
}

// The slot of a local as a call begins, of a parameter with its argument.
fn entry_slot(alloc: Global, local: &Local, value: Option<&Value>) -> Result<Slot, NoMemory>
    ensures { IfOk result (λ x. x ≡ words.parameter_slot local.now (option_copied value.entry)) }
{
    match value {
        None => fresh(alloc, local.ty, local.length),
        Some(v) => Ok(Slot::Number(convert(local.ty, *v))),
    }
}

/// The slots of a function's locals as a call begins.
pub fn entry_slots(alloc: Global, locals: &[Local], values: &[Value]) -> Result<Vec<Slot>, NoMemory>
    ensures { IfOk result (λ v. v.items ≡ runs.entry_slots locals.now values.now) }
{
    let mut slots = Vec::new(alloc);
    for (i, local) in locals.iter().enumerate() {
        let slot = entry_slot(alloc, local, values.get(i))?;
        if slots.push(slot).is_err() {
            return Err(NoMemory);
        }
    }
    Ok(slots)
}
