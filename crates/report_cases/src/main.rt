//! Cases of the texts of reports, line by line. Headings are written as they are, and for each case its answer stands
//! on one line. A text has `@` for each line feed, `\` and two hexadecimal digits for a byte, and `\[N PIECE\]` for a
//! piece so many times. The cases:
//!
//! - `read ## TEXT`: the report that the text says, after `ok`, or the line at which it leaves the form. Of the report
//!   the number of block copies and the first bound, each shown value as its bound and its best, and the end;
//! - `again ## TEXT`: the text of the report that is read, with `@` for each line feed;
//! - `pieces ## TEXT`: the same, written in pieces;
//! - `count ## TEXT`: how many shown values the report that is read has.
#![tactic(auto)]

mod answers;
mod told;
mod wrong;

use std::io;

fn main(rt: HostRuntime) -> io::Result<()> {
    for line in rt.lines(rt.alloc()) {
        let text = answers::told(rt.alloc(), line?.as_str())?;
        println!(rt; "{text}")?;
    }
    Ok(())
}
