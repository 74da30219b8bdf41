//! The numbers of arrays (C11 6.7.9).

ghost use Rattle.std.specs.Prelude.{◌≡◌, IfOk};
ghost use Rattle.c_tree.specs.Meaning.Values as values;
ghost use Rattle.c_tree.specs.Meaning.Stores as stores;

use c_semantics::{convert, zero_of};
use c_tree::{NoMemory, Ty, Value};
use sqlite_items::Items;
use std::alloc::Global;

// The values, each converted to the type.
fn converted(alloc: Global, ty: Ty, from: &[Value]) -> Result<Items<Value>, NoMemory>
    ensures { IfOk result (λ vs. vs ≡ values.converted_values ty from.now) }
{
    let mut list = Items::new(alloc);
    for v in from {
        list.push(convert(ty, *v))?;
    }
    Ok(list)
}

/// The numbers of an array of this length: the values converted, and 0 after them.
pub fn padded(
    alloc: Global,
    ty: Ty,
    length: usize,
    values: &[Value],
) -> Result<Items<Value>, NoMemory>
    ensures { IfOk result (λ vs. vs ≡ stores.padded_list ty length values.now) }
{
    let mut list = converted(alloc, ty, values)?;
    let missing = length.saturating_sub(values.len());
    for _at in 0..missing {
        list.push(zero_of(ty))?;
    }
    Ok(list)
}
