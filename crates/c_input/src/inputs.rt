//! The store that an input gives (C11 6.7.9; the order of the inputs is this project's own).

ghost use Rattle.std.specs.Prelude.{◌≡◌, ℕ, [], ◌∷◌, ◌++◌, Some, IsTrue, IfOk, OnOk, drop, map, slice_get, unwrap_or};
ghost use Rattle.c_tree.specs.Meaning.Values as values;
ghost use Rattle.c_tree.specs.Meaning.Runs as spec;
ghost use Rattle.c_tree.specs.Keeping.WellFormed.{WellFormedGlobal, WellFormedGlobals};
ghost use Rattle.c_input.specs.Starts.{NumberAt, Takes, own_width, own_slot};

use c_semantics::zero_of;
use c_tree::{Func, Global as Outside, NoMemory, Slot, Ty, Value};
use sqlite_items::{Items, at};
use std::alloc::Global;

// A number of a type's range, as a value of it.
fn of_number(ty: Ty, z: &i64) -> Value
    requires { IsTrue (values.is_of ty z.now) }
    ensures { result ≡ values.of_int ty z.now }
{
    match ty {
        Ty::Int => Value::Int(*z as i32),
        Ty::Unsigned => Value::Unsigned(*z as u32),
    }
}

/// The types of a function's parameters.
pub(crate) fn entry_types(alloc: Global, func: &Func) -> Result<Items<Ty>, NoMemory>
    ensures { IfOk result (λ ts. ts ≡ spec.param_types func.now.params func.now.locals) }
{
    let locals = func.locals.as_slice();
    let mut types = Items::new(alloc);
    for local in locals {
        if types.len() >= func.params as usize {
            return Ok(types);
        }
        types.push(local.ty)?;
    }
    Ok(types)
}

/// The arguments of the entry function, which come first in an input.
pub(crate) fn arguments(
    alloc: Global,
    types: &[Ty],
    values: &[i64],
) -> Result<Items<Value>, NoMemory>
    requires { (k : ℕ) → NumberAt (slice_get types.now k) (slice_get values.now k) }
    ensures { IfOk result (λ vs. vs ≡ spec.arguments types.now values.now) }
{
    let mut list = Items::new(alloc);
    for (i, ty) in types.iter().enumerate() {
        let Some(z) = at(values, i) else {
            return Ok(list);
        };
        list.push(of_number(*ty, z))?;
    }
    Ok(list)
}

// The numbers as values of a type.
fn values_of(alloc: Global, ty: Ty, from: &[i64]) -> Result<Items<Value>, NoMemory>
    requires { (k : ℕ) → NumberAt (Some ty) (slice_get from.now k) }
    ensures { IfOk result (λ vs. vs ≡ map (values.of_int ty) from.now) }
{
    let mut list = Items::new(alloc);
    for z in from {
        list.push(of_number(ty, z))?;
    }
    Ok(list)
}

// A global with these numbers, and 0 where there are none.
fn global_slot(
    alloc: Global,
    ty: Ty,
    length: Option<u32>,
    numbers: &[i64],
) -> Result<Slot, NoMemory>
    requires { (k : ℕ) → NumberAt (Some ty) (slice_get numbers.now k) }
    ensures { IfOk result (λ x. x ≡ spec.global_slot ty length numbers.now) }
{
    match length {
        None => match at(numbers, 0) {
            None => Ok(Slot::Number(zero_of(ty))),
            Some(z) => Ok(Slot::Number(of_number(ty, z))),
        },
        Some(n) => {
            let mut list = values_of(alloc, ty, numbers)?;
            let missing = (n as usize).saturating_sub(numbers.len());
            for _at in 0..missing {
                list.push(zero_of(ty))?;
            }
            Ok(Slot::Numbers(ty, list))
        }
    }
}

// The slot of a global: of an `extern` one with the numbers that come first, behind which the rest begins.
fn next_slot<'a>(
    alloc: Global,
    global: &Outside,
    rest: &'a [i64],
) -> Result<(Slot, &'a [i64]), NoMemory>
    requires global { WellFormedGlobal global.now }
    requires own { IsTrue global.now.outer → Takes global.now rest.now }
    ensures slot { IfOk result (λ r. r.0 ≡ own_slot global.now rest.now) }
    ensures rest { IfOk result (λ r. r.1.now ≡ drop (own_width global.now) rest.now) }
{
    if !global.outer {
        let slot = global_slot(alloc, global.ty, global.length, global.values.as_slice())?;
        return Ok((slot, rest));
    }
    let (own, more) = rest.split_at(width(global.length));
    let slot = global_slot(alloc, global.ty, global.length, own)?;
    Ok((slot, more))
}

/// How many input numbers an `extern` variable of this length has.
pub(crate) fn width(length: Option<u32>) -> usize
    ensures { result ≡ unwrap_or length 1 }
{
    match length {
        None => 1,
        Some(n) => n as usize,
    }
}

/// The slots of the globals, of which the `extern` ones have the numbers of the input.
pub(crate) fn global_slots(
    alloc: Global,
    globals: &[Outside],
    values: &[i64],
) -> Result<Vec<Slot>, NoMemory>
    requires globals { WellFormedGlobals globals.now }
    requires fits { IsTrue (spec.are_of (spec.outer_types globals.now) values.now) }
    ensures { IfOk result (λ v. v.items ≡ spec.global_slots globals.now values.now) }
{
    let mut slots = Vec::new(alloc);
    let mut rest = values;
    for global in globals {
        let (slot, more) = next_slot(alloc, global, rest)?;
        push(&mut slots, slot)?;
        rest = more;
    }
    Ok(slots)
}

// Pushes a slot.
fn push(slots: &mut Vec<Slot>, slot: Slot) -> Result<(), NoMemory>
    ensures { OnOk result (slots.new.items ≡ slots.old.items ++ slot ∷ []) }
{
    match slots.push(slot) {
        Ok(()) => Ok(()),
        Err(_) => Err(NoMemory),
    }
}
