//! Formulas in conjunctive normal form, refutation logs, and their texts. Nothing here knows of C.
//!
//! A formula is a list of clauses over the variables from 1 up to a number. A log is a list of lines; each gives a
//! clause and hints, the numbers of the clauses from which it follows.
#![tactic(auto)]

mod assignment;
mod clause;
mod clause_line;
mod cnf;
mod comment;
mod course;
mod form_fault;
mod formula;
mod front;
mod head;
mod law;
mod log;
mod log_head;
mod log_line;
mod log_text;
mod number;
mod token;
mod word;
mod write;

pub use assignment::Assignment;
pub use clause::Clause;
pub use cnf::Cnf;
pub use form_fault::FormFault;
pub use formula::read_cnf;
pub use law::{one_formula, one_log, read_again, read_log_again};
pub use log::{Log, LogLine};
pub use log_text::read_log;
pub use write::{write_cnf, write_log};
