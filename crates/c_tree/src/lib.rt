//! The trees of a C text, and what a program means.
#![tactic(auto)]

mod copies;
pub mod laws;
mod name;
mod no_memory;
mod program;
mod symbol;
mod token;
mod tree;
mod unit;
mod value;

pub use name::Name;
pub use no_memory::NoMemory;
pub use program::{BlockName, Costs, Func, Global, Input, Local, Program};
pub use symbol::Symbol;
pub use token::{Kind, Token};
pub use tree::{BinOp, Expr, Place, Stmt, Target, Ty, UnOp, Var};
pub use unit::{
    RawBound, RawExpr, RawFunc, RawParam, RawPlace, RawShape, RawStmt, RawTarget, RawTop, Spot,
    Unit,
};
pub use value::{Slot, Store, Value, Way};
