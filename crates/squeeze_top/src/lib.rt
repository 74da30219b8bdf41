//! The top call of the tool: `wcet_main` reads the words of the command line and does the job that they ask for;
//! `plain_mode` does a job that needs no workers, and always returns; `squeeze_on` is the part of the mode `squeeze`
//! that works on a board.
//!
//! The words are read in `word_line`, the texts in `front_end`, in the order in which refusals are told. `answer` has
//! the modes that need no workers; `plain` writes their answer, or the line of the refusal, and answers the status.
//! `squeeze` has the mode that races, which writes its report while it does. What each status says of the words, the
//! texts and what was written is said in `specs`.
#![tactic(auto)]

mod answer;
mod plain;
mod source;
mod squeeze;
mod top;

pub use front_end::Status;
pub use plain::plain_mode;
pub use squeeze::squeeze_on;
pub use top::wcet_main;
