//! Lines of `#`.

ghost use Rattle.std.specs.Prelude.{◌≡◌, ◌<◌, ◌≤◌, length, count_by, ◌||◌};
ghost use Rattle.std.specs.List.{after_last, list_all, prefix_len};
ghost use Rattle.c_tree.specs.Tokens.Characters as class;
ghost use Rattle.c_tree.specs.Tokens.Lexing as lexing;
ghost use Rattle.c_lexemes.specs.Directives.{IsOperand, IsDirective};

use crate::character::{is_carriage_return, is_digit, is_space_or_tab};
use crate::comment::line_of;
use crate::constant::value_of;
use crate::lexeme::name_length;
use memchr::memrchr;

/// What a line of `#` says.
#[derive(Clone, Copy)]
pub enum Directive {
    /// Nothing, a line marker, or a pragma other than `loopbound`.
    Skipped,
    /// A `loopbound` pragma.
    LoopBound {
        /// Its number.
        value: u64,
        /// How many bytes behind the `#` it takes, up to its last digit.
        size: usize,
    },
    /// Anything else.
    Other,
}

/// Whether a `#` stands here with only spaces and tabs before it on its line.
#[tactic(auto, unfolding(c_tree::specs::Tokens::Lexing::opens_directive))]
pub fn opens_directive(before: &[u8], here: &[u8]) -> bool
    ensures { result ≡ lexing.opens_directive before.now here.now }
{
    here.starts_with(b"#") && is_blank_line(last_line(before))
}

fn last_line(before: &[u8]) -> &[u8]
    ensures { result.now ≡ after_last class.is_line_feed before.now }
{
    match memrchr(b'\n', before) {
        Some(feed) => &before[feed + 1..],
        None => before,
    }
}

fn is_blank_line(line: &[u8]) -> bool
    ensures { result ≡ list_all class.is_space_or_tab line.now }
{
    line.iter().all(|byte| is_space_or_tab(*byte))
}

/// What stands behind the `#` on its line.
#[tactic(auto, unfolding(c_tree::specs::Tokens::Lexing::directive_of))]
pub fn directive_of(here: &[u8]) -> &[u8]
    requires { 0 < length here.now }
    ensures { result.now ≡ lexing.directive_of here.now }
{
    line_of(&here[1..])
}

/// How many spaces and tabs stand first.
fn spaces_length(bytes: &[u8]) -> usize
    ensures value { result ≡ prefix_len class.is_space_or_tab bytes.now }
    ensures within { result ≤ length bytes.now }
{
    bytes
        .iter()
        .take_while(|byte| is_space_or_tab(**byte))
        .count()
}

/// How many digits stand first.
fn digits_length(bytes: &[u8]) -> usize
    ensures value { result ≡ prefix_len class.is_digit bytes.now }
    ensures within { result ≤ length bytes.now }
{
    bytes.iter().take_while(|byte| is_digit(**byte)).count()
}

#[tactic(auto, unfolding(c_tree::specs::Tokens::Lexing::after_spaces))]
fn after_spaces(bytes: &[u8]) -> &[u8]
    ensures { result.now ≡ lexing.after_spaces bytes.now }
{
    &bytes[spaces_length(bytes)..]
}

/// The word behind spaces and tabs.
#[tactic(auto, unfolding(c_tree::specs::Tokens::Lexing::word_of))]
fn word_of(bytes: &[u8]) -> &[u8]
    ensures { result.now ≡ lexing.word_of bytes.now }
{
    let bytes = after_spaces(bytes);
    &bytes[..name_length(bytes)]
}

/// What stands behind that word.
#[tactic(auto, unfolding(c_tree::specs::Tokens::Lexing::after_word))]
fn after_word(bytes: &[u8]) -> &[u8]
    ensures { result.now ≡ lexing.after_word bytes.now }
{
    let bytes = after_spaces(bytes);
    &bytes[name_length(bytes)..]
}

#[tactic(auto, unfolding(c_tree::specs::Tokens::Lexing::is_marker))]
fn is_marker(bytes: &[u8]) -> bool
    ensures { result ≡ lexing.is_marker bytes.now }
{
    match bytes {
        [] => true,
        [first, ..] => is_digit(*first),
    }
}

#[tactic(auto, unfolding(c_tree::specs::Tokens::Lexing::is_pragma))]
fn is_pragma(line: &[u8]) -> bool
    ensures { result ≡ lexing.is_pragma line.now }
{
    word_of(line) == b"pragma".as_slice()
}

#[tactic(auto, unfolding(c_tree::specs::Tokens::Lexing::is_loopbound))]
fn is_loopbound(line: &[u8]) -> bool
    ensures { result ≡ lexing.is_loopbound line.now }
{
    is_pragma(line) && word_of(after_word(line)) == b"loopbound".as_slice()
}

#[tactic(auto, unfolding(c_tree::specs::Tokens::Lexing::is_skipped))]
fn is_skipped(line: &[u8]) -> bool
    ensures { result ≡ lexing.is_skipped line.now }
{
    is_marker(after_spaces(line)) || (is_pragma(line) && !is_loopbound(line))
}

/// What stands behind the words `pragma` and `loopbound`.
#[tactic(auto, unfolding(c_tree::specs::Tokens::Lexing::operand_of))]
fn operand_of(line: &[u8]) -> &[u8]
    ensures { result.now ≡ lexing.operand_of line.now }
{
    after_spaces(after_word(after_word(line)))
}

fn carriage_returns(bytes: &[u8]) -> usize
    ensures { result ≡ count_by class.is_carriage_return bytes.now }
{
    bytes
        .iter()
        .filter(|byte| is_carriage_return(**byte))
        .count()
}

fn is_spacing(bytes: &[u8]) -> bool
    ensures { result ≡ list_all (λ c. class.is_space_or_tab c || class.is_carriage_return c) bytes.now }
{
    bytes
        .iter()
        .all(|byte| is_space_or_tab(*byte) || is_carriage_return(*byte))
}

/// Whether only spaces, tabs and at most one carriage return stand here.
#[tactic(auto, unfolding(c_tree::specs::Tokens::Lexing::is_line_end))]
fn is_line_end(rest: &[u8]) -> bool
    ensures { result ≡ lexing.is_line_end rest.now }
{
    is_spacing(rest) && carriage_returns(rest) <= 1
}

/// The digits of an operand, and what stands behind them.
#[tactic(auto, unfolding(c_tree::specs::Tokens::Lexing::operand_digits, c_tree::specs::Tokens::Lexing::operand_rest))]
fn split_operand(operand: &[u8]) -> (&[u8], &[u8])
    ensures digits { result.0.now ≡ lexing.operand_digits operand.now }
    ensures rest { result.1.now ≡ lexing.operand_rest operand.now }
{
    operand.split_at(digits_length(operand))
}

/// The number of a `loopbound` pragma, and how many bytes stand behind its digits.
fn bound_of(operand: &[u8]) -> Option<(u64, usize)>
    ensures { IsOperand operand.now result }
{
    let (digits, rest) = split_operand(operand);
    if digits.len() > 10 {
        return None;
    }
    if !is_line_end(rest) {
        return None;
    }
    let value = value_of(10, digits)?;
    Some((value, rest.len()))
}

/// What stands behind a `#` on its line.
#[tactic(auto, using(crate::proofs::Operands::operand_rest_le), unfolding(c_tree::specs::Tokens::Lexing::is_bound_line))]
pub fn read_directive(line: &[u8]) -> Directive
    ensures { IsDirective line.now result }
{
    if is_skipped(line) {
        return Directive::Skipped;
    }
    if !is_loopbound(line) {
        return Directive::Other;
    }
    match bound_of(operand_of(line)) {
        Some((value, behind)) => Directive::LoopBound {
            value,
            size: line.len() - behind,
        },
        None => Directive::Other,
    }
}
