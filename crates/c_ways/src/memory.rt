//! The slots of the locals at work and of the globals, and what changes them (C11 6.2.4, 6.5.16, 6.7.9).

ghost use Rattle.std.specs.Prelude.{◌≡◌, option_copied, slice_get, slice_set};
ghost use Rattle.c_tree.specs.declared.value.Store.{Store};
ghost use Rattle.c_tree.specs.Meaning.Stores as spec;
ghost use Rattle.c_ways.specs.Changed.{store_if_changed, changed_list, with_element};

use c_semantics::{convert, ty_of};
use c_tree::{Slot, Ty, Value, Var};
use sqlite_items::Items;
use std::marker::Model;
use std::mem;

/// A store that is changed in place.
#[derive(Drop)]
pub struct Memory {
    locals: Vec<Slot>,
    globals: Vec<Slot>,
}

impl Model for Memory {
    ghost Value = { Store };

    ghost view = { λ m. record { locals = m.locals.items; globals = m.globals.items } };
}

/// The type of a slot, which is `int` where there is none.
pub fn slot_ty(slot: Option<&Slot>) -> Ty
    ensures { result ≡ spec.slot_ty (option_copied slot.entry) }
{
    match slot {
        None => Ty::Int,
        Some(Slot::Unset(ty)) => *ty,
        Some(Slot::Number(v)) => ty_of(*v),
        Some(Slot::Numbers(ty, _)) => *ty,
    }
}

impl Memory {
    /// A store of these locals and globals.
    pub fn new(locals: Vec<Slot>, globals: Vec<Slot>) -> Memory
        ensures { result ≡ record { locals = locals.items; globals = globals.items } }
    {
        Memory { locals, globals }
    }

    /// What the store has for a variable.
    pub fn slot(&self, var: Var) -> Option<&Slot>
        ensures { option_copied result ≡ spec.slot self.now var }
    {
        match var {
            Var::Local(n) => self.locals.as_slice().get(n as usize),
            Var::Global(n) => self.globals.as_slice().get(n as usize),
        }
    }

    /// Puts other locals in place of those that it has, which it answers.
    pub fn replace_locals(&mut self, locals: Vec<Slot>) -> Vec<Slot>
        ensures old { result.items ≡ self.old.locals }
        ensures new { self.new ≡ spec.with_locals self.old locals.items }
    {
        mem::replace(&mut self.locals, locals)
    }

    // Puts a slot in a variable's place, if it has one.
    fn put(&mut self, var: Var, slot: Slot)
        ensures { self.new ≡ spec.with_slot self.old var slot }
    {
        match var {
            Var::Local(n) => set(&mut self.locals, n, slot),
            Var::Global(n) => set(&mut self.globals, n, slot),
        }
    }

    /// Makes a local unset, as its declaration does.
    pub fn unset(&mut self, local: u32)
        ensures { self.new ≡ spec.unset_local local self.old }
    {
        let ty = slot_ty(self.slot(Var::Local(local)));
        self.put(Var::Local(local), Slot::Unset(ty));
    }

    /// Assigns to a scalar, converting to its type.
    pub fn put_number(&mut self, var: Var, v: Value)
        ensures { self.new ≡ spec.put_number self.old var v }
    {
        let ty = slot_ty(self.slot(var));
        self.put(var, Slot::Number(convert(ty, v)));
    }

    /// Gives a local array its numbers.
    pub fn put_array(&mut self, local: u32, ty: Ty, numbers: Items<Value>)
        ensures { self.new ≡ spec.with_slot self.old (Var.Local local) (Slot.Numbers ty numbers) }
    {
        self.put(Var::Local(local), Slot::Numbers(ty, numbers));
    }

    /// Assigns to an element, converting to its type; tells whether that is defined.
    pub fn put_at(&mut self, var: Var, at: u32, v: Value) -> bool
        ensures { store_if_changed result self.new ≡ spec.put_at self.old var (spec.slot self.old var) at v }
    {
        match var {
            Var::Local(n) => set_element(&mut self.locals, n, at, v),
            Var::Global(n) => set_element(&mut self.globals, n, at, v),
        }
    }
}

// Puts a slot in the place of the slot number `n`, if there is one.
fn set(slots: &mut Vec<Slot>, n: u32, slot: Slot)
    ensures { slots.new.items ≡ slice_set slots.old.items n slot }
{
    let n = n as usize;
    if n < slots.len() {
        slots[n] = slot;
    }
}

// Sets an element of the array that is the slot number `n`, if it is one.
fn set_element(slots: &mut Vec<Slot>, n: u32, at: u32, v: Value) -> bool
    ensures { changed_list result slots.new.items ≡ with_element slots.old.items n (slice_get slots.old.items n) at v }
{
    let n = n as usize;
    if n >= slots.len() {
        return false;
    }
    match &mut slots[n] {
        Slot::Numbers(ty, vs) => {
            let at = at as usize;
            let inside = at < vs.len();
            if inside {
                vs.set(at, convert(*ty, v));
            }
            inside
        }
        _ => false,
    }
}
