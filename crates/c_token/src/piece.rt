//! What stands at a place of a text.

ghost use Rattle.std.specs.Prelude.{◌≡◌, ◌<◌, ℕ, List, true, length};
ghost use Rattle.c_tree.specs.Tokens.Lexing as lexing;
ghost use Rattle.c_token.specs.Pieces.{Stands, IsOther, size_of};

use c_lexemes::{
    Directive, block_comment_length, directive_of, is_blank, kind_of, lexeme_length, line_of,
    opens_block_comment, opens_directive, opens_line_comment, read_directive,
};
use c_tree::Kind;

/// What stands at a place, with its length.
#[derive(Clone, Copy)]
pub(crate) enum Piece {
    /// A blank, a comment or a skipped line of `#`.
    Gap(usize),
    /// A token.
    Lexeme(Kind, usize),
}

impl Piece {
    /// How many bytes it takes.
    pub(crate) fn len(self) -> usize
        ensures { result ≡ size_of self }
    {
        match self {
            Piece::Gap(length) => length,
            Piece::Lexeme(_, length) => length,
        }
    }
}

/// What keeps a place from being read.
#[derive(Clone, Copy)]
pub(crate) enum Flaw {
    /// Nothing begins here.
    Byte,
    /// A comment without end.
    Comment,
    /// A number run that is no constant.
    Number,
    /// A line of `#` that is none of the permitted ones.
    Directive,
}

/// What stands first in `here`; `before` is the text up to it.
pub(crate) fn read_piece(before: &[u8], here: &[u8]) -> Result<Piece, Flaw>
    requires { 0 < length here.now }
    ensures { Stands before.now here.now result }
{
    if is_blank(here[0]) {
        return Ok(Piece::Gap(1));
    }
    if opens_block_comment(here) {
        return read_block_comment(here);
    }
    if opens_line_comment(here) {
        return Ok(Piece::Gap(line_of(here).len()));
    }
    if opens_directive(before, here) {
        return read_line(here);
    }
    read_lexeme(here)
}

fn read_block_comment(here: &[u8]) -> Result<Piece, Flaw>
    requires opens { lexing.opens_block_comment here.now ≡ true }
    requires long { 1 < length here.now }
    ensures { (before : List ℕ) → Stands before here.now result }
{
    match block_comment_length(here) {
        Some(length) => Ok(Piece::Gap(length)),
        None => Err(Flaw::Comment),
    }
}

fn read_line(here: &[u8]) -> Result<Piece, Flaw>
    requires { 0 < length here.now }
    ensures { (before : List ℕ) → lexing.opens_directive before here.now ≡ true → Stands before here.now result }
{
    let line = directive_of(here);
    match read_directive(line) {
        Directive::Skipped => Ok(Piece::Gap(1 + line.len())),
        Directive::LoopBound { value, size } => Ok(Piece::Lexeme(Kind::Bound(value), 1 + size)),
        Directive::Other => Err(Flaw::Directive),
    }
}

#[tactic(auto, using(c_lexemes::proofs::LongestMatch::no_constant))]
fn read_lexeme(here: &[u8]) -> Result<Piece, Flaw>
    requires { 0 < length here.now }
    ensures { (before : List ℕ) → IsOther before here.now → Stands before here.now result }
{
    let Some(length) = lexeme_length(here) else {
        return Err(Flaw::Byte);
    };
    match kind_of(&here[..length]) {
        Some(kind) => Ok(Piece::Lexeme(kind, length)),
        None => Err(Flaw::Number),
    }
}
