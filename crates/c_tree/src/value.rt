//! Values and stores.

use crate::tree::Ty;
use sqlite_items::Items;

/// A number of type `int` or `unsigned`.
#[derive(Clone, Copy, Debug, PartialEq, Eq)]
pub enum Value {
    Int(i32),
    Unsigned(u32),
}

/// What a store has for a name: no value yet, a number, or the numbers of an array. A slot keeps its type.
#[derive(Debug, Drop)]
pub enum Slot {
    Unset(Ty),
    Number(Value),
    Numbers(Ty, Items<Value>),
}

/// The slots of the locals of a function and of the globals of the program, by their numbers.
#[derive(Debug, Drop)]
pub struct Store {
    pub locals: Items<Slot>,
    pub globals: Items<Slot>,
}

/// How a statement ends: what comes next, `break`, `continue`, or `return` with or without a value.
#[derive(Clone, Copy, Debug)]
pub enum Way {
    Next,
    Break,
    Continue,
    Return(Option<Value>),
}
