//! The first key in byte order at which a table is at fault.

ghost use Rattle.std.specs.Prelude.{◌≡◌, not, option_map, is_none};
ghost use Rattle.std.specs.BTreeSet.{contains_text};
ghost use Rattle.toml.specs.View.{table_view};
ghost use Rattle.cost_document.specs.Documents.{first_key, is_stray, entries, cost_in};
ghost use Rattle.cost_table.specs.Tables.{number_fault};

use crate::fault::CostFault;
use cost_document::{cost_in, cost_table, default, is_stray};
use std::collections::BTreeSet;
use toml::Table;

/// The first key at the top that is none of the three, or is `cost` and holds no table.
pub(crate) fn first_stray(document: &Table) -> Option<&str>
    ensures { option_map (λ key. key.now) result ≡ first_key is_stray (table_view document.now) }
{
    for (key, value) in document {
        if is_stray(key.as_str(), value) {
            return Some(key.as_str());
        }
    }
    None
}

/// The first key of `cost` that is not among those known to name a block.
pub(crate) fn first_unknown<'a>(document: &'a Table, known: &BTreeSet<String>) -> Option<&'a str>
    ensures { option_map (λ key. key.now) result ≡ first_key (λ key d. not (contains_text known.now key))
        (entries (table_view document.now)) }
{
    unknown_key(cost_table(document)?, known)
}

fn unknown_key<'a>(entries: &'a Table, known: &BTreeSet<String>) -> Option<&'a str>
    ensures { option_map (λ key. key.now) result ≡ first_key (λ key d. not (contains_text known.now key))
        (table_view entries.now) }
{
    for (key, _value) in entries {
        if !known.contains(key.as_str()) {
            return Some(key.as_str());
        }
    }
    None
}

/// The first key of `cost` whose value is no cost.
pub(crate) fn first_without_cost(document: &Table) -> Option<&str>
    ensures { option_map (λ key. key.now) result ≡ first_key (λ key d. is_none (cost_in d))
        (entries (table_view document.now)) }
{
    key_without_cost(cost_table(document)?)
}

fn key_without_cost(entries: &Table) -> Option<&str>
    ensures { option_map (λ key. key.now) result ≡ first_key (λ key d. is_none (cost_in d)) (table_view entries.now) }
{
    for (key, value) in entries {
        if cost_in(value).is_none() {
            return Some(key.as_str());
        }
    }
    None
}

/// The first key whose value is no cost, where `default` comes before those of `cost`.
pub(crate) fn first_no_number(document: &Table) -> Option<&str>
    ensures { option_map (λ key. CostFault.Number key.now) result ≡ number_fault (table_view document.now) }
{
    match default(document) {
        Some(value) if cost_in(value).is_none() => Some("default"),
        _ => first_without_cost(document),
    }
}
