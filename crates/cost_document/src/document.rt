//! What the keys of the document of a table hold.

ghost use Rattle.std.specs.Prelude.{◌≡◌, false, option_map, option_and_then, unwrap_or, OnSome, IsUtf8, codes};
ghost use Rattle.toml.specs.Data.{as_table, get_member};
ghost use Rattle.toml.specs.View.{view, table_view};
ghost use Rattle.cost_document.specs.Documents as spec;

use toml::{Table, Value};

// What a key of a table holds.
fn value_at<'a>(table: &'a Table, key: &str) -> Option<&'a Value>
    ensures { option_map (λ v. view v.now) result ≡ get_member key.now (table_view table.now) }
{
    table.get(key)
}

/// Whether the key `version` holds the whole number 1.
pub fn has_version_one(document: &Table) -> bool
    ensures { result ≡ unwrap_or (option_map spec.is_one (spec.version (table_view document.now))) false }
{
    match value_at(document, "version") {
        Some(value) => is_one(value),
        None => false,
    }
}

// Whether a value is the whole number 1.
fn is_one(value: &Value) -> bool
    ensures { result ≡ spec.is_one (view value.now) }
{
    value.as_integer() == Some(1)
}

/// What the key `default` holds.
pub fn default(document: &Table) -> Option<&Value>
    ensures { option_map (λ v. view v.now) result ≡ spec.default (table_view document.now) }
{
    value_at(document, "default")
}

/// The table `cost`, where there is one.
pub fn cost_table(document: &Table) -> Option<&Table>
    ensures { option_map (λ t. table_view t.now) result ≡ option_and_then as_table
        (get_member (codes "cost") (table_view document.now)) }
{
    match value_at(document, "cost") {
        Some(value) => value.as_table(),
        None => None,
    }
}

/// The entry of this name in the table `cost`. Its name is a text.
pub fn entry<'a>(document: &'a Table, name: &[u8]) -> Option<&'a Value>
    ensures text { OnSome result (IsUtf8 name.now) }
    ensures value { option_map (λ v. view v.now) result ≡ get_member name.now (spec.entries (table_view document.now)) }
{
    let entries = cost_table(document)?;
    match std::str::from_utf8(name) {
        Ok(name) => value_at(entries, name),
        Err(_) => None,
    }
}

/// The cost that a value is, where it is a whole number from 0 to 4,294,967,295.
pub fn cost_in(value: &Value) -> Option<u32>
    ensures { result ≡ spec.cost_in (view value.now) }
{
    u32::try_from(value.as_integer()?).ok()
}

/// The cost of the block of this name, where the table gives one: its entry, or else `default`.
pub fn given(document: &Table, name: &[u8]) -> Option<u32>
    ensures { result ≡ spec.written_cost (table_view document.now) name.now }
{
    let value = match entry(document, name) {
        Some(value) => value,
        None => default(document)?,
    };
    cost_in(value)
}

/// Whether a key at the top is none of the three, or is `cost` and holds no table.
pub fn is_stray(key: &str, value: &Value) -> bool
    ensures { result ≡ spec.is_stray key.now (view value.now) }
{
    match key {
        "cost" => !value.is_table(),
        "version" | "default" => false,
        _ => true,
    }
}
