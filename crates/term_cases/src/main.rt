//! Cases of terms, line by line. Headings are written as they are, and for each case its answer stands on one line. The
//! cases:
//!
//! - `declare ## KINDS`: the number of each declared input, `signed` or not, and whether each is signed;
//! - `put ## TERM; TERM ..`: the number of each term that is put, the operators of the store, and their words. A term
//! is the name of an operator and the numbers of its operands, or `const` and a word;
//! - `words ## OPERATOR ## OPERANDS; OPERANDS ..`: the word of the operator over each of these lists of words;
//! - `inputs ## A ## B`: the words of a signed input A and an unsigned input B.
#![tactic(auto)]

mod answers;
mod inputs;

use std::io;

fn main(rt: HostRuntime) -> io::Result<()> {
    for line in rt.lines(rt.alloc()) {
        let text = answers::told(rt.alloc(), line?.as_str())?;
        println!(rt; "{text}")?;
    }
    Ok(())
}
