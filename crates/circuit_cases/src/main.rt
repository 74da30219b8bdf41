//! Cases of formulas of conditions, line by line. Headings are written as they are, and for each case its answer
//! stands on one line. Inputs are `signed` or `unsigned`; a term is the name of an operator and the numbers of its
//! operands, and terms have `; ` between them. The cases:
//!
//! - `formula ## INPUTS ## TERMS ## CONDITIONS`: the text of the formula, with `@` for each line feed;
//! - `decode ## INPUTS ## TERMS ## CONDITIONS ## VALUES`: the input that the assignment says, each value 0 or 1, and
//!   whether it satisfies the formula;
//! - `holds ## OPERATOR ## WORDS; WORDS ..`: for each list whether the operator over all words but the last equals the
//!   last, by the gates of its circuit in order;
//! - `solve ## INPUTS ## TERMS ## CONDITIONS ## LIMIT`: an input at which each condition is nonzero, which the search
//!   found within this limit and the words of the terms confirm; or that there is none, or that the search gave up;
//! - `verdict ## ..` with the same parts: the same without the numbers of the input, where there are several.
#![tactic(auto)]

mod answers;
mod formula;
mod gates;
mod solutions;

use std::io;

fn main(rt: HostRuntime) -> io::Result<()> {
    for line in rt.lines(rt.alloc()) {
        let text = answers::told(rt.alloc(), line?.as_str())?;
        println!(rt; "{text}")?;
    }
    Ok(())
}
