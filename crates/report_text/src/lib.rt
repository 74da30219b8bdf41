//! The text of a report, written and read.
//!
//! A report says what the tool found out about a program: how many blocks it has after inlining, the first bound, the
//! values that were shown while the search went on, and how it ended.
#![tactic(auto)]

mod assemble;
mod course;
mod kind;
mod law;
mod line_course;
mod number;
mod pieces;
mod read;
mod report;
mod report_fault;
mod stage;
mod write;

pub use law::{one_report, read_again, reports_are_pieces, whole_lines_are_lines};
pub use pieces::{end_lines, front_lines, value_lines};
pub use read::read_report;
pub use report::{Last, Report, Shown, Spent};
pub use report_fault::ReportFault;
pub use write::lines;
