//! Circuits of 32-bit words: the bits of each term as literals of gates, code that lays out the gates, the clauses of
//! conditions as a definition, and what these clauses say.
#![tactic(auto)]

mod arithmetic;
mod binary;
mod gate;
mod gate_words;
pub mod law;
mod literal;
mod moving;
mod netlist;
mod operator;
mod pair;
mod product;
mod quotient;
mod shift;
mod sign;
mod sum;
mod term;
mod word;

pub use gate::Gate;
pub use literal::Literal;
pub use netlist::Netlist;
pub use operator::bits_at;
pub use term::terms_bits;
pub use word::{falses, truth};
