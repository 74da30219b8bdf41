//! Cases of the top call. A case has its words, with a blank between them, the program `f.c`, the table `t.toml`, the
//! numbers of the reads that fail, and how many bytes a write takes with the numbers of the writes that fail; calls
//! are counted from 0. Parts that are wanting are empty, and a case that has words alone is over the real files beside
//! the program. The answer is the status and what was written. A case `read NAME FROM MOST` reads a real file once; its
//! answer is how many bytes it got, and which. The answer to a case `made NUMBER SIZE` is that of `ipet` over the two
//! texts that `make` writes.
#![tactic(auto)]

mod case;
mod judging;
mod made;
mod real;

use case_lines::is_heading;
use judging::answer_to;
use std::io;

fn main(rt: HostRuntime) -> io::Result<()> {
    for line in rt.lines(rt.alloc()) {
        let line = line?;
        if is_heading(line.as_str()) {
            println!(rt; "{line}")?;
        } else {
            let answer = answer_to(&rt, rt.alloc(), line.as_str())?;
            println!(rt; "{answer}")?;
        }
    }
    Ok(())
}
