//! Comments (C11 6.4.9) and the ends of lines.

ghost use Rattle.std.specs.Prelude.{◌≡◌, ◌≤◌, true, IsTrue, length, MatchOption};
ghost use Rattle.c_tree.specs.Tokens.Lexing as lexing;
ghost use Rattle.c_lexemes.specs.Unread.{IsOpenComment};

use memchr::{memchr, memmem};

/// What stands up to the end of the line.
#[tactic(auto, unfolding(c_tree::specs::Tokens::Lexing::line_of, c_tree::specs::Tokens::Characters::is_line_feed))]
pub fn line_of(here: &[u8]) -> &[u8]
    ensures { result.now ≡ lexing.line_of here.now }
{
    match memchr(b'\n', here) {
        Some(end) => &here[..end],
        None => here,
    }
}

/// Whether `/*` stands here.
#[tactic(auto, unfolding(c_tree::specs::Tokens::Lexing::opens_block_comment))]
pub fn opens_block_comment(here: &[u8]) -> bool
    ensures value { result ≡ lexing.opens_block_comment here.now }
    ensures long { IsTrue result → 2 ≤ length here.now }
{
    here.starts_with(b"/*")
}

/// Whether `//` stands here.
#[tactic(auto, unfolding(c_tree::specs::Tokens::Lexing::opens_line_comment))]
pub fn opens_line_comment(here: &[u8]) -> bool
    ensures { result ≡ lexing.opens_line_comment here.now }
{
    here.starts_with(b"//")
}

/// The length of the block comment that opens here, if it is closed.
pub fn block_comment_length(here: &[u8]) -> Option<usize>
    requires opens { lexing.opens_block_comment here.now ≡ true }
    requires long { 2 ≤ length here.now }
    ensures { MatchOption result (IsOpenComment here.now) (lexing.IsBlockComment here.now) }
{
    let inside = memmem::find(&here[2..], b"*/")?;
    Some(inside + 4)
}
