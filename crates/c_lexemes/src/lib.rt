//! What stands at one place of a C text (C11 6.4): classes of bytes, comments, names, keywords, numbers and marks, and
//! lines of `#`.
#![tactic(auto)]

mod character;
mod comment;
mod constant;
mod directive;
mod lexeme;
mod table;

pub use character::is_blank;
pub use comment::{block_comment_length, line_of, opens_block_comment, opens_line_comment};
pub use directive::{Directive, directive_of, opens_directive, read_directive};
pub use lexeme::{kind_of, lexeme_length};
