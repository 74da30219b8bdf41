//! What the printed text of a program is made of, below its recursions: words of types and operators, names, numbers,
//! the places of parentheses, the lines of bounds and those of globals.
#![tactic(auto)]

mod globals;
mod levels;
mod lines;
mod parts;

pub use globals::push_global;
pub use levels::{level, strength};
pub use lines::{push_bound, push_line};
pub use parts::{
    bin_text, push, push_decimal, push_declaration, push_declared, push_func_name, push_margin,
    push_name, push_number, push_value, type_text, un_text,
};
