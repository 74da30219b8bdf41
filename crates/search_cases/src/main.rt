//! Cases of the search, line by line. Headings are written as they are, and for each case its answer stands on one
//! line. The cases, of which each has a limit of lines:
//!
//! - `solve ## FORMULA ## LIMIT`: the formula of a text, with `@` for each line feed;
//! - `values ## FORMULA ## LIMIT`: the values of the variables that the search found;
//! - `chain ## VARIABLES ## LIMIT`: the first variable is true, each variable follows from the one before it, and the
//! last one is false;
//! - `pigeons ## HOLES ## LIMIT`: one pigeon more than there are holes, each in a hole of its own;
//! - `parity ## VARIABLES ## LIMIT`: the parity of the variables, summed from the front, differs from that summed from
//!   the back;
//! - `random ## VARIABLES ## CLAUSES ## SEED ## COUNT`: so many formulas of clauses of three literals, a letter for
//! each.
//!
//! Every verdict is checked here: an assignment by evaluation, a log by the checker.
#![tactic(auto)]

mod answers;
mod formulas;
mod outcome;
mod random;
mod wrong;

use std::io;

fn main(rt: HostRuntime) -> io::Result<()> {
    for line in rt.lines(rt.alloc()) {
        let text = answers::told(rt.alloc(), line?.as_str())?;
        println!(rt; "{text}")?;
    }
    Ok(())
}
