//! The costs of a program's blocks, by a table or plain.

ghost use Rattle.std.specs.Prelude.{◌≡◌, ◌≢◌, Ok, Err, IfOk, IfErr, OnOk, OnErr, None, Some};
ghost use Rattle.c_tree.specs.Meaning.Claims.{AreCostsOf};
ghost use Rattle.toml.specs.View.{table_view};
ghost use Rattle.cost_document.specs.Documents.{document};
ghost use Rattle.cost_table.specs.Tables.{
  IsTable,
  verdict,
  costs_of_one,
  table_result,
  table_fault,
  costs_of,
  version_fault,
  key_fault,
  block_fault,
  number_fault,
};

use crate::fault::CostFault;
use crate::first::{first_no_number, first_stray, first_unknown};
use crate::known::known_names;
use crate::rows::{plain_rows, rows};
use c_tree::{Costs, Func, Name, NoMemory, Program};
use cost_document::has_version_one;
use std::alloc::Global;
use toml::Table;

/// The costs that the table in `text` gives to the blocks of `program`.
///
/// The table is TOML with `version = 1`, an optional whole number `default`, and an optional table `cost` from names of
/// blocks, `function:number`, to whole numbers; each is from 0 to 4,294,967,295. A block costs its entry, or else
/// `default`.
///
/// # Errors
///
/// The first fault, in the order of `CostFault`; `NoMemory` may stand before any other.
pub fn costs(alloc: Global, program: &Program, text: &[u8]) -> Result<Costs, CostFault>
    ensures table { IfOk result (IsTable text.now program.now) }
    ensures fault { IfErr result (λ e. e ≢ CostFault.NoMemory → verdict program.now text.now ≡ Err e) }
    ensures costs { IfOk result (AreCostsOf program.now) }
{
    let document = read(alloc, text)?;
    document_costs(alloc, program.funcs.as_slice(), &document)
}

/// 1 for every block of `program`. `NoMemory` is want of memory.
pub fn plain_costs(alloc: Global, program: &Program) -> Result<Costs, NoMemory>
    ensures plain { IfOk result (λ t. t ≡ costs_of_one program.now) }
    ensures costs { IfOk result (AreCostsOf program.now) }
{
    let by_func = plain_rows(alloc, program.funcs.as_slice())?;
    Ok(Costs { by_func })
}

// The document that the bytes spell.
fn read(alloc: Global, text: &[u8]) -> Result<Table, CostFault>
    ensures document { IfOk result (λ t. document text.now ≡ Some (table_view t)) }
    ensures refused { IfErr result (λ e. e ≢ CostFault.NoMemory → document text.now ≡ None) }
    ensures fault { IfErr result (λ e. e ≢ CostFault.NoMemory → e ≡ CostFault.NotToml) }
{
    match toml::table_from_slice(alloc, text) {
        Ok(document) => Ok(document),
        Err(error) => {
            if error.is_memory() {
                return Err(CostFault::NoMemory);
            }
            Err(CostFault::NotToml)
        }
    }
}

// The costs that a document gives.
pub(crate) fn document_costs(
    alloc: Global,
    funcs: &[Func],
    document: &Table,
) -> Result<Costs, CostFault>
    ensures table { IfOk result (λ t. table_result (table_fault funcs.now (table_view document.now))
        (costs_of funcs.now (table_view document.now)) ≡ Ok t) }
    ensures fault { IfErr result (λ e. e ≢ CostFault.NoMemory
        → table_result (table_fault funcs.now (table_view document.now)) (costs_of funcs.now (table_view document.now))
        ≡ Err e) }
{
    if !has_version_one(document) {
        return Err(CostFault::Version);
    }
    check_keys(alloc, document)?;
    check_blocks(alloc, funcs, document)?;
    check_numbers(alloc, document)?;
    let by_func = rows(alloc, funcs, document)?;
    Ok(Costs { by_func })
}

// That each key at the top is one of the three, and `cost` a table.
fn check_keys(alloc: Global, document: &Table) -> Result<(), CostFault>
    ensures whole { OnOk result (key_fault (table_view document.now) ≡ None) }
    ensures fault { IfErr result (λ e. e ≢ CostFault.NoMemory → key_fault (table_view document.now) ≡ Some e) }
{
    let Some(key) = first_stray(document) else {
        return Ok(());
    };
    let name = Name::from_slice(alloc, key.as_bytes())?;
    Err(CostFault::Key { name })
}

// That each key of `cost` names a block.
fn check_blocks(alloc: Global, funcs: &[Func], document: &Table) -> Result<(), CostFault>
    ensures whole { OnOk result (block_fault funcs.now (table_view document.now) ≡ None) }
    ensures fault { IfErr result (λ e. e ≢ CostFault.NoMemory → block_fault funcs.now (table_view document.now)
        ≡ Some e) }
{
    let known = known_names(alloc, funcs, document)?;
    let Some(key) = first_unknown(document, &known) else {
        return Ok(());
    };
    let name = Name::from_slice(alloc, key.as_bytes())?;
    Err(CostFault::Block { name })
}

// That `default` and each value of `cost` is a cost.
fn check_numbers(alloc: Global, document: &Table) -> Result<(), CostFault>
    ensures whole { OnOk result (number_fault (table_view document.now) ≡ None) }
    ensures fault { IfErr result (λ e. e ≢ CostFault.NoMemory → number_fault (table_view document.now) ≡ Some e) }
{
    let Some(key) = first_no_number(document) else {
        return Ok(());
    };
    let name = Name::from_slice(alloc, key.as_bytes())?;
    Err(CostFault::Number { name })
}
