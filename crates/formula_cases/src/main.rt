//! Cases of formulas, refutation logs and their texts, line by line. Headings are written as they are, and for each
//! case its answer stands on one line, with `@` for each line feed. The cases:
//!
//! - `formula ## TEXT` and `log ## TEXT`: what the text says, written again after `ok`, or the line at which it leaves
//!   the form;
//! - `lines ## TEXT`: of the log that the text says each line's clause and hints;
//! - `clause ## LITERALS`: the literals of the clause, or `none`;
//! - `new formula ## VARIABLES ## CLAUSE; CLAUSE ..` and `new log ## CLAUSE by HINTS; ..`: the text of what was made,
//!   or `none`;
//! - `assignment ## VALUES`: its values;
//! - `accepts ## FORMULA ## LOG`: `accepted`, or the line at which the log fails.
#![tactic(auto)]

mod answers;
mod made;
mod numbers;
mod wrong;

use std::io;

fn main(rt: HostRuntime) -> io::Result<()> {
    for line in rt.lines(rt.alloc()) {
        let text = answers::told(rt.alloc(), line?.as_str())?;
        println!(rt; "{text}")?;
    }
    Ok(())
}
