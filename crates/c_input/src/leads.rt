//! What stands before each number in the text of an input (this project's own).

ghost use Rattle.std.specs.Prelude.{◌≡◌, ◌++◌, codes, replicate, option_copied, IfOk, OnOk};
ghost use Rattle.c_input.specs.InputTexts as spec;
ghost use Rattle.c_input.specs.Reading.{global_leads};

use crate::inputs::width;
use c_tree::{Func, Global as Outside, Local, Name, NoMemory, Program};
use sqlite_items::Items;
use std::alloc::Global;

/// The bytes that stand before each input number of a program, in order.
pub(crate) fn input_leads(alloc: Global, program: &Program) -> Result<Items<Items<u8>>, NoMemory>
    ensures { IfOk result (λ ls. ls ≡ spec.input_leads program.now) }
{
    let mut leads = Items::new(alloc);
    let entry = program.funcs.get(program.entry as usize);
    push_entry(alloc, &mut leads, entry)?;
    push_globals(alloc, &mut leads, program.globals.as_slice())?;
    Ok(leads)
}

// Pushes what stands before the numbers of the entry function's parameters, if there is such a function.
fn push_entry(
    alloc: Global,
    leads: &mut Items<Items<u8>>,
    entry: Option<&Func>,
) -> Result<(), NoMemory>
    ensures { OnOk result (leads.new ≡ leads.old ++ spec.entry_leads (option_copied entry.entry)) }
{
    match entry {
        None => Ok(()),
        Some(func) => push_params(alloc, leads, func.params, func.locals.as_slice()),
    }
}

// Pushes what stands before the numbers of a function's parameters.
fn push_params(
    alloc: Global,
    leads: &mut Items<Items<u8>>,
    params: u32,
    locals: &[Local],
) -> Result<(), NoMemory>
    ensures { OnOk result (leads.new ≡ leads.old ++ spec.param_leads params locals.now) }
{
    let mut left = params;
    for local in locals {
        if left == 0 {
            return Ok(());
        }
        left -= 1;
        push_leads(alloc, leads, &local.name, 1)?;
    }
    Ok(())
}

// Pushes what stands before the numbers of the `extern` variables.
fn push_globals(
    alloc: Global,
    leads: &mut Items<Items<u8>>,
    globals: &[Outside],
) -> Result<(), NoMemory>
    ensures { OnOk result (leads.new ≡ leads.old ++ spec.outer_leads globals.now) }
{
    for global in globals {
        push_global(alloc, leads, global)?;
    }
    Ok(())
}

// Pushes what stands before the numbers of a global, which has none unless it is `extern`.
fn push_global(
    alloc: Global,
    leads: &mut Items<Items<u8>>,
    global: &Outside,
) -> Result<(), NoMemory>
    ensures { OnOk result (leads.new ≡ leads.old ++ global_leads global.now) }
{
    if global.outer {
        push_leads(alloc, leads, &global.name, width(global.length))
    } else {
        Ok(())
    }
}

// Pushes what stands before each number of an input variable.
fn push_leads(
    alloc: Global,
    leads: &mut Items<Items<u8>>,
    name: &Name,
    count: usize,
) -> Result<(), NoMemory>
    ensures { OnOk result (leads.new ≡ leads.old ++ spec.own_leads name.now count) }
{
    if count == 0 {
        return Ok(());
    }
    leads.push(first_lead(alloc, name)?)?;
    push_commas(alloc, leads, count - 1)
}

// A blank, the name and `=`.
fn first_lead(alloc: Global, name: &Name) -> Result<Items<u8>, NoMemory>
    ensures { IfOk result (λ l. l ≡ codes " " ++ name.now ++ codes "=") }
{
    let mut lead = Vec::from_slice(alloc, b" ")?;
    lead.extend_from_slice(name.as_slice())?;
    lead.extend_from_slice(b"=")?;
    Ok(Items::from_vec(lead))
}

// Pushes so many commas.
fn push_commas(alloc: Global, leads: &mut Items<Items<u8>>, count: usize) -> Result<(), NoMemory>
    ensures { OnOk result (leads.new ≡ leads.old ++ replicate count (codes ",")) }
{
    for _at in 0..count {
        leads.push(Items::from_slice(alloc, b",")?)?;
    }
    Ok(())
}
