//! Lines of the files of cases that test programs read. A case is a line with ` ## ` between its parts and `@` for a
//! line feed in a part. Lines that are empty or begin with `//` are headings, and a test program writes them as they
//! are.
#![tactic(auto)]

mod bytes;

pub use bytes::{CaseFault, bytes_of};
use std::alloc::{AllocError, Global};

/// Whether a line is a heading, and so no case.
pub fn is_heading(line: &str) -> bool {
    line.is_empty() || line.starts_with("//")
}

/// The parts of a case, in order; a line has one at least. It fails for want of memory alone.
pub fn parts(alloc: Global, line: &str) -> Result<Vec<&str>, AllocError> {
    line.split(" ## ").collect(alloc)
}

/// A part with a line feed for each `@`. It fails for want of memory alone.
pub fn with_lines(alloc: Global, part: &str) -> Result<String, AllocError> {
    let mut text = String::new(alloc);
    for (number, line) in part.split('@').enumerate() {
        if number > 0 {
            text.push('\n')?;
        }
        text.push_str(line)?;
    }
    Ok(text)
}

/// A text on one line, with `@` for each line feed. It fails for want of memory alone.
pub fn on_one_line(alloc: Global, text: &str) -> Result<String, AllocError> {
    let mut part = String::new(alloc);
    for (number, line) in text.split('\n').enumerate() {
        if number > 0 {
            part.push('@')?;
        }
        part.push_str(line)?;
    }
    Ok(part)
}
