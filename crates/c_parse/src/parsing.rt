//! The tree of a text.

ghost use Rattle.std.specs.Prelude.{◌≡◌, ◌<◌, ◌≤◌, ◌^◌, ℕ, List, length, All, IfOk, IfErr};
ghost use Rattle.c_tree.specs.declared.token.Token.{Token};
ghost use Rattle.c_tree.specs.declared.unit.Unit.{Unit as Tree};
ghost use Rattle.c_tree.specs.Grammar.Heights.{unit_height};
ghost use Rattle.c_tree.specs.Tokens.Places.{AreInOrder};
ghost use Rattle.c_tree.specs.Grammar.Spelling.{Spells};
ghost use Rattle.c_parse.specs.Answers.{Gives, IsPlace, IsRefusal};
ghost use Rattle.c_parse.specs.Lexeme.{IsWithin};

use crate::fault::ParseFault;
use crate::reader::Reader;
use c_tree::{Token, Unit};
use parse_laws::{ReadingFault, law};
use std::alloc::Global;

/// The greatest height of a tree that is read.
const MAX_HEIGHT: usize = 128;

/// The place of the first of the last `left` tokens, or the end of the text where none is left.
fn place(text: &[u8], tokens: &[Token], left: usize) -> u32
    requires { length text.now < 2 ^ 32 }
    ensures { IsPlace text.now tokens.now result }
{
    match tokens.get(tokens.len().saturating_sub(left)) {
        None => text.len() as u32,
        Some(token) => token.from,
    }
}

/// The refusal that tells the fault.
fn refusal(text: &[u8], tokens: &[Token], fault: ReadingFault) -> ParseFault
    requires { length text.now < 2 ^ 32 }
    ensures place { IsRefusal text.now tokens.now result }
    ensures memory { fault ≡ ReadingFault.NoMemory → result ≡ ParseFault.NoMemory }
{
    match fault {
        ReadingFault::NoMemory => ParseFault::NoMemory,
        ReadingFault::Syntax(left) | ReadingFault::Depth(left) => ParseFault::Syntax {
            at: place(text, tokens, left),
        },
    }
}

/// The tree that the tokens of the text spell (C11 6.5 to 6.9), if its height is at most 128. The text has fewer than
/// 2^32 bytes, and each token lies within it.
///
/// Every refusal but want of memory is `Syntax`. Its place is the first byte of a token or the end of the text; no
/// clause says which, it is that of the first token that was not taken. `NoMemory` may come in place of any answer.
pub fn parse(alloc: Global, text: &[u8], tokens: &[Token]) -> Result<Unit, ParseFault>
    requires short { length text.now < 2 ^ 32 }
    requires within { All (IsWithin text.now) tokens.now }
    // What is read is spelled, and low enough.
    ensures spelled { IfOk result (λ unit. Spells text.now tokens.now unit) }
    ensures low { IfOk result (λ unit. unit_height unit ≤ 128) }
    // What is spelled and low enough is read, unless memory is wanting.
    ensures read { (unit : Tree) → Spells text.now tokens.now unit → unit_height unit ≤ 128 → Gives unit result }
    ensures refused { IfErr result (IsRefusal text.now tokens.now) }
{
    let mut reader = Reader::new(alloc, text, tokens);
    match reader.whole(MAX_HEIGHT) {
        Ok(tops) => Ok(Unit {
            tops,
            end: text.len() as u32,
        }),
        Err(fault) => Err(refusal(text, tokens, fault)),
    }
}

/// The law that the tokens of a text spell at most one tree, whatever its height.
pub fn one_tree()
    ensures { (text : List ℕ) (tokens : List Token) (a b : Tree)
        → Spells text tokens a → Spells text tokens b → a ≡ b }
{
    law::one_tree();
}

/// The law that tokens in order lie within their text, as `parse` asks.
pub fn ordered_tokens_are_within()
    ensures { (text : List ℕ) (tokens : List Token) → AreInOrder 0 tokens (length text) → All (IsWithin text) tokens }
{}
