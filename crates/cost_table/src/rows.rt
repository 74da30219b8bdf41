//! The costs of the blocks, function by function.

ghost use Rattle.std.specs.Prelude.{◌≡◌, ◌≢◌, Some, None, map, replicate, false, is_some, option_map, option_and_then, IfOk, IfErr, OnOk};
ghost use Rattle.c_tree.specs.declared.program.Func.{Func};
ghost use Rattle.c_tree.specs.Meaning.Blocks.{list_blocks};
ghost use Rattle.toml.specs.Data.{get_member};
ghost use Rattle.toml.specs.View.{table_view};
ghost use Rattle.cost_document.specs.Documents.{entries, default, cost_in, written_cost};
ghost use Rattle.cost_table.specs.Tables as spec;

use crate::blocks::{block_count, block_name};
use crate::fault::CostFault;
use c_tree::{Func, Name, NoMemory};
use cost_document::{cost_in, default, given, numbers_held};
use sqlite_items::Items;
use std::alloc::Global;
use toml::Table;

/// A list for each function, with the cost of each of its blocks.
pub(crate) fn rows(
    alloc: Global,
    funcs: &[Func],
    document: &Table,
) -> Result<Items<Items<u32>>, CostFault>
    requires { spec.number_fault (table_view document.now) ≡ None }
    ensures costs { IfOk result (λ rows. rows ≡ map (λ (f : Func). map (spec.table_cost (table_view document.now))
        (spec.names_of f)) funcs.now) }
    ensures whole { OnOk result (spec.missing_fault funcs.now (table_view document.now) ≡ None) }
    ensures missing { IfErr result (λ e. e ≢ CostFault.NoMemory → spec.missing_fault funcs.now
        (table_view document.now) ≡ Some e) }
{
    let mut rows = Items::new(alloc);
    for func in funcs {
        rows.push(row(alloc, func, document)?)?;
    }
    Ok(rows)
}

// The cost of each block of a function.
fn row(alloc: Global, func: &Func, document: &Table) -> Result<Items<u32>, CostFault>
    requires { spec.number_fault (table_view document.now) ≡ None }
    ensures costs { IfOk result (λ row. row ≡ map (spec.table_cost (table_view document.now)) (spec.names_of func.now)) }
    ensures whole { OnOk result (spec.first_missing (table_view document.now) (spec.names_of func.now) ≡ None) }
    ensures missing { IfErr result (λ e. e ≢ CostFault.NoMemory → option_map CostFault.Missing
        (spec.first_missing (table_view document.now) (spec.names_of func.now)) ≡ Some e) }
{
    let count = block_count(func).ok_or(NoMemory)?;
    let held = numbers_held(alloc, document, func.name.as_slice(), count)?;
    let mut row = Items::new(alloc);
    for number in 0..count {
        let Some(cost) = block_cost(alloc, func, number, held[number], document)? else {
            let name = block_name(alloc, &func.name, number)?;
            let name = Name::from_slice(alloc, name.as_slice())?;
            return Err(CostFault::Missing { name });
        };
        row.push(cost)?;
    }
    Ok(row)
}

// The cost of a block, of which `held` says whether it has an entry. Without one its name need not be written.
fn block_cost(
    alloc: Global,
    func: &Func,
    number: usize,
    held: bool,
    document: &Table,
) -> Result<Option<u32>, NoMemory>
    requires { held ≡ is_some (get_member (spec.block_name func.now.name number) (entries (table_view document.now))) }
    ensures { IfOk result (λ cost. cost ≡ written_cost (table_view document.now) (spec.block_name func.now.name number)) }
{
    if held {
        let name = block_name(alloc, &func.name, number)?;
        return Ok(given(document, name.as_slice()));
    }
    Ok(default_cost(document))
}

// The cost of a block without an entry.
fn default_cost(document: &Table) -> Option<u32>
    ensures { result ≡ option_and_then cost_in (default (table_view document.now)) }
{
    cost_in(default(document)?)
}

/// A list for each function, with a 1 for each of its blocks.
pub(crate) fn plain_rows(alloc: Global, funcs: &[Func]) -> Result<Items<Items<u32>>, NoMemory>
    ensures { IfOk result (λ rows. rows ≡ map (λ (f : Func). replicate (list_blocks f.body false) 1) funcs.now) }
{
    let mut rows = Items::new(alloc);
    for func in funcs {
        let count = block_count(func).ok_or(NoMemory)?;
        rows.push(Items::from_vec(vec![in alloc; 1_u32; count]?))?;
    }
    Ok(rows)
}
