//! Programs, their costs and their inputs.

use crate::name::Name;
use crate::tree::{Stmt, Ty};
use sqlite_items::Items;
use std::marker::Model;

/// A local of a function, a parameter among them. An array has a length, from 1 to 64 in a checked program.
#[derive(Drop)]
pub struct Local {
    pub name: Name,
    pub ty: Ty,
    pub length: Option<u32>,
}

/// A variable of file scope. An array has a length, from 1 to 64 in a checked program. `outer` tells `extern`, whose
/// numbers are inputs; `values` are those of the initialiser, in order and converted to the type. There are none
/// without one, and a short list stays short.
#[derive(Drop)]
pub struct Global {
    pub name: Name,
    pub ty: Ty,
    pub length: Option<u32>,
    pub outer: bool,
    pub values: Items<i64>,
}

/// A function. `result` is None for `void`. Its first `params` locals are its parameters.
#[derive(Drop)]
pub struct Func {
    pub name: Name,
    pub result: Option<Ty>,
    pub params: u32,
    pub locals: Items<Local>,
    pub body: Items<Stmt>,
}

/// A program: its globals and functions in the order of the text, and the number of its entry function. It is typed
/// from a unit that the tokens of some text spell, which whoever makes one has to prove; checking does, and copying.
#[derive(Drop)]
pub struct Program {
    pub globals: Items<Global>,
    pub funcs: Items<Func>,
    pub entry: u32,
}

impl Model for Program {
    ghost use Rattle.std.specs.Coded.{codes};
    ghost use Rattle.c_tree.specs.contracts.tree.Stmt as stmt;
    ghost use Rattle.c_tree.specs.Keeping.Programs.{Program};

    ghost Value = { Program };

    ghost coded = { Prim.hlevel (codes, stmt.the_row.coded) };

    ghost use Rattle.c_tree.specs.Checking.Checked.{IsProgram, parts};

    ghost view = { parts };

    ghost invariant = { λ a. IsProgram (parts a) };
}

/// A block of a function, by the numbers of both.
#[derive(Clone, Copy, Debug, PartialEq, Eq)]
pub struct BlockName {
    pub func: u32,
    pub number: u32,
}

/// The costs of blocks: a list for each function in order. Costs of a program have a list for each of its functions,
/// with a number for each block.
#[derive(Drop)]
pub struct Costs {
    pub by_func: Items<Items<u32>>,
}

/// The input numbers of a run: those of the entry function's parameters in order, then those of the extern variables,
/// an array element by element. An input fits a program that asks for as many, each in the range of its type.
#[derive(Drop)]
pub struct Input {
    pub values: Items<i64>,
}
