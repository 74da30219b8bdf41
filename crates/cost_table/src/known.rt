//! The keys of `cost` that name a block.

ghost use Rattle.std.specs.Prelude.{◌≡◌, ◌&&◌, ◌||◌, ℕ, List, is_some, IfOk, OnOk};
ghost use Rattle.std.specs.BTreeSet.{contains_text};
ghost use Rattle.std.specs.List.{list_any};
ghost use Rattle.std.specs.Str.{bytes_eq};
ghost use Rattle.toml.specs.Data.{get_member};
ghost use Rattle.toml.specs.View.{table_view};
ghost use Rattle.cost_document.specs.Documents.{entries};
ghost use Rattle.cost_table.specs.Tables.{block_name, names_of, names_block};

use crate::blocks::{block_count, block_name};
use c_tree::{Func, NoMemory};
use cost_document::{entry, numbers_held};
use std::alloc::Global;
use std::collections::BTreeSet;
use toml::Table;

/// The names of blocks that have an entry.
pub(crate) fn known_names(
    alloc: Global,
    funcs: &[Func],
    document: &Table,
) -> Result<BTreeSet<String>, NoMemory>
    ensures { IfOk result (λ known. (key : List ℕ) →
        contains_text known key
        ≡ (names_block funcs.now key && is_some (get_member key (entries (table_view document.now))))) }
{
    let mut known = BTreeSet::new(alloc);
    for func in funcs {
        add_names(alloc, &mut known, func, document)?;
    }
    Ok(known)
}

// Adds the names of a function's blocks that have an entry.
fn add_names(
    alloc: Global,
    known: &mut BTreeSet<String>,
    func: &Func,
    document: &Table,
) -> Result<(), NoMemory>
    ensures { OnOk result ((key : List ℕ) →
        contains_text known.new key ≡ (contains_text known.old key || (list_any (bytes_eq key) (names_of func.now)
        && is_some (get_member key (entries (table_view document.now)))))) }
{
    let count = block_count(func).ok_or(NoMemory)?;
    let held = numbers_held(alloc, document, func.name.as_slice(), count)?;
    for number in 0..count {
        add_name(alloc, known, func, number, held[number], document)?;
    }
    Ok(())
}

// Adds the name of a block, of which `held` says whether it has an entry, where it has one. Without one it need not be
// written.
fn add_name(
    alloc: Global,
    known: &mut BTreeSet<String>,
    func: &Func,
    number: usize,
    held: bool,
    document: &Table,
) -> Result<(), NoMemory>
    requires { held ≡ is_some (get_member (block_name func.now.name number) (entries (table_view document.now))) }
    ensures { OnOk result ((key : List ℕ) →
        contains_text known.new key ≡ (contains_text known.old key || (bytes_eq key (block_name func.now.name number) && is_some (get_member key (entries (table_view document.now)))))) }
{
    if !held {
        return Ok(());
    }
    let name = block_name(alloc, &func.name, number)?;
    add_entry(known, document, name)
}

// Adds a name, where it has an entry.
fn add_entry(known: &mut BTreeSet<String>, document: &Table, name: Vec<u8>) -> Result<(), NoMemory>
    ensures { OnOk result ((key : List ℕ) →
        contains_text known.new key ≡ (contains_text known.old key
        || (bytes_eq key name.items && is_some (get_member key (entries (table_view document.now)))))) }
{
    if entry(document, name.as_slice()).is_none() {
        return Ok(());
    }
    let Ok(name) = String::from_utf8(name) else {
        return Ok(());
    };
    if known.insert(name).is_err() {
        return Err(NoMemory);
    }
    Ok(())
}
