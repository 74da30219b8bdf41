//! Names, keywords, numbers and marks.

ghost use Rattle.std.specs.Prelude.{◌≡◌, ◌≤◌, true, length, MatchOption};
ghost use Rattle.std.specs.List.{prefix_len};
ghost use Rattle.c_tree.specs.Tokens.Characters as class;
ghost use Rattle.c_tree.specs.Tokens.TokenKinds as lexemes;
ghost use Rattle.c_tree.specs.Tokens.Lexing.{IsLongest};
ghost use Rattle.c_lexemes.specs.Unread.{HasNoToken};
ghost use Rattle.c_lexemes.specs.Lengths as lengths;

use crate::character::{is_digit, is_exponent, is_name_byte, is_nondigit, is_sign};
use crate::constant::constant_of;
use crate::table::{is_keyword, mark_length};
use c_tree::Kind;

/// How many bytes at the front may stand in a name.
pub(crate) fn name_length(here: &[u8]) -> usize
    ensures value { result ≡ prefix_len class.is_name_byte here.now }
    ensures within { result ≤ length here.now }
{
    here.iter().take_while(|byte| is_name_byte(**byte)).count()
}

#[tactic(auto, unfolding(crate::specs::Lengths::continues))]
fn continues(last: u8, byte: u8) -> bool
    ensures { result ≡ lengths.continues last byte }
{
    is_name_byte(byte) || byte == b'.' || (is_sign(byte) && is_exponent(last))
}

/// The length of the number run that stands first (C11 6.4.8).
#[tactic(auto, unfolding(crate::specs::Lengths::number_length))]
fn number_length(here: &[u8]) -> usize
    ensures { result ≡ lengths.number_length 0 here.now }
{
    let mut last = 0;
    for (i, byte) in here.iter().enumerate() {
        if !continues(last, *byte) {
            return i;
        }
        last = *byte;
    }
    here.len()
}

fn begins_name(here: &[u8]) -> bool
    ensures { result ≡ class.begins class.is_nondigit here.now }
{
    match here {
        [] => false,
        [first, ..] => is_nondigit(*first),
    }
}

fn begins_number(here: &[u8]) -> bool
    ensures { result ≡ class.begins class.is_digit here.now }
{
    match here {
        [] => false,
        [first, ..] => is_digit(*first),
    }
}

/// The length of the longest token that stands first (C11 6.4 paragraph 4).
#[tactic(auto, using(crate::proofs::LongestMatch::name_here, crate::proofs::LongestMatch::number_here, crate::proofs::LongestMatch::mark_here))]
pub fn lexeme_length(here: &[u8]) -> Option<usize>
    ensures { MatchOption result (HasNoToken here.now) (IsLongest here.now) }
{
    if begins_name(here) {
        Some(name_length(here))
    } else if begins_number(here) {
        Some(number_length(here))
    } else {
        mark_length(here)
    }
}

/// What a token with these bytes is; `None` is a number run that is no constant.
#[tactic(auto, using(crate::proofs::LongestMatch::kind_of_number, crate::proofs::LongestMatch::kind_of_word, crate::proofs::LongestMatch::kind_of_mark))]
pub fn kind_of(lexeme: &[u8]) -> Option<Kind>
    requires { lexemes.could_be_token lexeme.now ≡ true }
    ensures { result ≡ lexemes.kind_of lexeme.now }
{
    if begins_number(lexeme) {
        constant_of(lexeme)
    } else if !begins_name(lexeme) {
        Some(Kind::Mark)
    } else if is_keyword(lexeme) {
        Some(Kind::Word)
    } else {
        Some(Kind::Name)
    }
}
