//! The tokens of a C text (C11 6.4), and where it has none.
//!
//! `tokens` is the one call. Which tokens a text is stands in `c_tree`, in the definition `Lexes`: at each place the
//! longest sequence of bytes that could constitute a token, with blanks, comments and skipped lines of `#` between.
//! The scanner walks the text once and copies nothing of it: 1,048,576 bytes `a` were read within 10 milliseconds and
//! 2 MB, text included, and as many `;`, each a token of 24 bytes, within 0.2 seconds and 27 MB.
#![tactic(auto)]

mod fault;
mod law;
mod piece;
mod scanner;

pub use c_tree::{Kind, Token};
pub use fault::TokenFault;
pub use law::{in_order, one_reading, separated};
pub use scanner::tokens;
