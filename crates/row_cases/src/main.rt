//! Cases of rows, bounds, boxes and made programs, line by line. Headings are written as they are, and for each case
//! its answer stands on one line, with `@` for each line feed. A row is its terms, each an edge, `:` and its factor,
//! then `<=` or `=` and its right side; rows have `;` between them. Limits are the least and the greatest count with
//! `..` between them. The cases:
//!
//! - `rows ## EDGES ## ROWS` and `box ## LIMITS`: what was made, or `none`;
//! - `objective ## COSTS` and `multipliers ## D ## NUMBERS`: what was made;
//! - `meets ## ROWS ## COUNTS`: whether the counts meet the rows;
//! - `fits ## EDGES ## ROWS ## D ## NUMBERS`: whether the multipliers fit the rows;
//! - `bound ## ROWS ## COSTS ## LIMITS ## D ## NUMBERS`: the dual value;
//! - `tighten ## ROWS ## LIMITS`: what narrowing by the rows says of the box, and the limits that it leaves;
//! - `split ## LIMITS ## EDGE ## VALUE`: the limits of each part of the box that is split there;
//! - `make ## NUMBER ## SIZE`: the made program, ` ## `, and its table;
//! - `last lines ## NUMBER ## SIZE ## N ## M`: of each text the number of bytes, and N and M lines at the end.
#![tactic(auto)]

mod answers;
mod bounds;
mod boxes;
mod cases;
mod lists;
mod numbers;
mod rows;
mod wrong;

use std::io;

fn main(rt: HostRuntime) -> io::Result<()> {
    for line in rt.lines(rt.alloc()) {
        let text = answers::told(rt.alloc(), line?.as_str())?;
        println!(rt; "{text}")?;
    }
    Ok(())
}
