//! From a text to its tokens and its tree.

ghost use Rattle.std.specs.Prelude.{◌≤◌, All, length, IfOk};
ghost use Rattle.c_parse.specs.Lexeme.{IsWithin};

use crate::refusal::CaseRefusal;
use c_parse::{ordered_tokens_are_within, parse};
use c_token::tokens;
use c_tree::{Token, Unit};
use std::alloc::Global;

/// The most bytes of a text.
const LONGEST: usize = 1_048_576;

/// The unit of a text.
pub fn unit_of(alloc: Global, text: &[u8]) -> Result<Unit, CaseRefusal> {
    if text.len() > LONGEST {
        return Err(CaseRefusal::Length);
    }
    let tokens = lexed(alloc, text)?;
    Ok(parse(alloc, text, &tokens)?)
}

/// The tokens of a text.
pub fn tokens_of(alloc: Global, text: &[u8]) -> Result<Vec<Token>, CaseRefusal> {
    if text.len() > LONGEST {
        return Err(CaseRefusal::Length);
    }
    lexed(alloc, text)
}

fn lexed(alloc: Global, text: &[u8]) -> Result<Vec<Token>, CaseRefusal>
    requires { length text.now ≤ 1048576 }
    ensures within { IfOk result (λ ts. All (IsWithin text.now) ts.items) }
{
    ordered_tokens_are_within();
    Ok(tokens(alloc, text)?)
}
