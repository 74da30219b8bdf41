//! Cases of texts. A case has its kind and a text: `tokens` asks for the tokens with their places, `count` how many
//! tokens there are, `tree` for the tree, each name and number with its place and a pair of brackets round each part,
//! and `read` whether there is a tree. The answer is that, or the first fault and its place.
#![tactic(auto)]

mod answer;
mod reading;
mod refusal;
mod shown_expr;
mod shown_tokens;
mod shown_unit;

use answer::answer_to;
use case_lines::is_heading;
use std::io;

fn main(rt: HostRuntime) -> io::Result<()> {
    for line in rt.lines(rt.alloc()) {
        let line = line?;
        if is_heading(line.as_str()) {
            println!(rt; "{line}")?;
        } else {
            let answer = answer_to(rt.alloc(), line.as_str())?;
            println!(rt; "{answer}")?;
        }
    }
    Ok(())
}
