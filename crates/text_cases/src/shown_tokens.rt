//! Tokens as a text: each with its kind, its value and its places.

use c_tree::{Kind, Token};
use std::alloc::{AllocError, Global};

/// The tokens of a text, with a comma between them.
pub fn shown_tokens(alloc: Global, tokens: &[Token]) -> Result<String, AllocError> {
    let mut shown = String::new(alloc);
    for token in tokens {
        if !shown.is_empty() {
            shown.push_str(", ")?;
        }
        shown.push_str(shown_token(alloc, *token)?.as_str())?;
    }
    Ok(shown)
}

fn shown_token(alloc: Global, token: Token) -> Result<String, AllocError> {
    let Token { kind, from, to } = token;
    match kind {
        Kind::Word => format!(in alloc; "Word {from}-{to}"),
        Kind::Name => format!(in alloc; "Name {from}-{to}"),
        Kind::Number {
            unsigned: false,
            value,
        } => format!(in alloc; "Number {value} {from}-{to}"),
        Kind::Number {
            unsigned: true,
            value,
        } => format!(in alloc; "Number {value}u {from}-{to}"),
        Kind::Mark => format!(in alloc; "Mark {from}-{to}"),
        Kind::Bound(bound) => format!(in alloc; "Bound {bound} {from}-{to}"),
    }
}
