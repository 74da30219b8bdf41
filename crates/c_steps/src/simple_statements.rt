//! Simple statements: declarations without a call, and assignments (C11 6.7.9, 6.5.16).

ghost use Rattle.std.specs.Prelude.{◌≡◌, option_copied, option_and_then, IfOk};
ghost use Rattle.c_tree.specs.Meaning.Stores as stores;
ghost use Rattle.c_tree.specs.Meaning.Expressions as expressions;
ghost use Rattle.c_tree.specs.Meaning.Statements as spec;
ghost use Rattle.c_ways.specs.Changed.{store_if_changed};

use crate::expressions::{index, number_at, number_in, value};
use c_semantics::operated;
use c_tree::{BinOp, Expr, NoMemory, Place, Slot, Stmt, Value, Var};
use c_ways::{Memory, padded, slot_ty};
use sqlite_items::Items;
use std::alloc::Global;

fn place_value(place: &Place, memory: &Memory) -> Option<Value>
    ensures { result ≡ spec.place_value place.now memory.now }
{
    match place {
        Place::Scalar(x) => number_in(memory.slot(*x)),
        Place::Elem(x, i) => {
            let at = index(value(i, memory)?)?;
            number_at(memory.slot(*x), at)
        }
    }
}

/// The value that is assigned.
fn assigned_value(place: &Place, op: &Option<BinOp>, e: &Expr, memory: &Memory) -> Option<Value>
    ensures { result ≡ spec.assigned_value place.now op.now e.now memory.now }
{
    match op {
        None => value(e, memory),
        Some(op) => operated(*op, place_value(place, memory), value(e, memory)),
    }
}

fn assign_at(place: &Place, v: Value, memory: &mut Memory) -> bool
    ensures { store_if_changed result memory.new ≡ spec.assign_at place.now v memory.old }
{
    match place {
        Place::Scalar(x) => {
            memory.put_number(*x, v);
            true
        }
        Place::Elem(x, i) => match place_of(i, memory) {
            None => false,
            Some(at) => memory.put_at(*x, at, v),
        },
    }
}

/// The value of an index.
fn place_of(i: &Expr, memory: &Memory) -> Option<u32>
    ensures { result ≡ option_and_then stores.index (expressions.val i.now memory.now) }
{
    index(value(i, memory)?)
}

fn assign(place: &Place, op: &Option<BinOp>, e: &Expr, memory: &mut Memory) -> bool
    ensures { store_if_changed result memory.new ≡ option_and_then (λ v. spec.assign_at place.now v memory.old)
        (spec.assigned_value place.now op.now e.now memory.old) }
{
    match assigned_value(place, op, e, memory) {
        None => false,
        Some(v) => assign_at(place, v, memory),
    }
}

/// The values of a list of expressions, or None where one is undefined.
pub fn all_values(
    alloc: Global,
    exprs: &[Expr],
    memory: &Memory,
) -> Result<Option<Items<Value>>, NoMemory>
    ensures { IfOk result (λ vs. vs ≡ expressions.all_values exprs.now memory.now) }
{
    let mut values = Items::new(alloc);
    for e in exprs {
        let Some(v) = value(e, memory) else {
            return Ok(None);
        };
        values.push(v)?;
    }
    Ok(Some(values))
}

fn array_length(slot: Option<&Slot>) -> usize
    ensures { result ≡ stores.slot_length (option_copied slot.entry) }
{
    match slot {
        Some(Slot::Numbers(_, vs)) => vs.len(),
        _ => 0,
    }
}

/// The declaration of a scalar, which makes it unset before its initialiser is evaluated.
fn declare(local: u32, initial: &Option<Expr>, memory: &mut Memory) -> bool
    ensures { store_if_changed result memory.new ≡ spec.simple (Stmt.Scalar local initial.now) memory.old }
{
    memory.unset(local);
    match initial {
        None => true,
        Some(e) => match value(e, memory) {
            None => false,
            Some(v) => {
                memory.put_number(Var::Local(local), v);
                true
            }
        },
    }
}

/// The declaration of an array, which keeps its type and its length, and is unset before its list is evaluated.
fn declare_array(
    alloc: Global,
    local: u32,
    exprs: &[Expr],
    memory: &mut Memory,
) -> Result<bool, NoMemory>
    ensures { IfOk result (λ d. store_if_changed d memory.new ≡ spec.simple (Stmt.Array local exprs.now) memory.old) }
{
    let slot = memory.slot(Var::Local(local));
    let ty = slot_ty(slot);
    let length = array_length(slot);
    memory.unset(local);
    match all_values(alloc, exprs, memory)? {
        None => Ok(false),
        Some(values) => {
            let list = padded(alloc, ty, length, values.as_slice())?;
            memory.put_array(local, ty, list);
            Ok(true)
        }
    }
}

/// Does a simple statement, and tells whether it is defined.
pub fn simple(alloc: Global, stmt: &Stmt, memory: &mut Memory) -> Result<bool, NoMemory>
    ensures { IfOk result (λ d. store_if_changed d memory.new ≡ spec.simple stmt.now memory.old) }
{
    match stmt {
        Stmt::Empty => Ok(true),
        Stmt::Scalar(local, initial) => Ok(declare(*local, initial, memory)),
        Stmt::Array(local, exprs) => declare_array(alloc, *local, exprs.as_slice(), memory),
        Stmt::Assign(place, op, e) => Ok(assign(place, op, e, memory)),
        _ => Ok(false),
    }
}
