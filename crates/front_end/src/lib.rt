//! From texts to a plan: what a compiler's front end does. It reads the text of a program, the text of an input where
//! the program is to be run, and a table of costs where one is named, and plans the program with its costs.
//!
//! The work goes in the order in which refusals are told: `reading` (text to program), the input, `pricing` (table to
//! costs), `planning` (both to the plan); `work` takes the texts from a shelf. `refusal` has the refusals by stage and
//! how the tool ends at each, `line` their lines, `writing` writes lines. What is accepted, and what each refusal says
//! of the texts, is said in `specs`.
#![tactic(auto)]

mod line;
mod planning;
mod pricing;
mod reading;
mod refusal;
mod status;
mod stop;
mod work;
mod writing;

pub use refusal::{PlanRefusal, ProgramRefusal, Refusal, TableRefusal};
pub use status::Status;
pub use stop::{Halt, Stop};
pub use work::{Front, Source, front_end};
pub use writing::{put_lines, refuse};
