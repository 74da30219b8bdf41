//! The line `p cnf V C`.

ghost use Rattle.std.specs.Prelude.{◌≡◌, ◌≤◌, ◌↔◌, ◌⊎◌, [], ◌∷◌, true, codes, decimal, IsTrue};
ghost use Rattle.cnf_form.specs.Literals.{most};
ghost use Rattle.cnf_form.specs.Forms.{begins_with};
ghost use Rattle.text_lines.specs.Cutting.{EndsInFeed, IsUnfinished};
ghost use Rattle.cnf_form.specs.Passing.{UpTo, IsHeadOf, LacksWord};

use crate::cnf::MOST;
use crate::number::number_of;
use crate::word::first_word;

/// How the first line of a formula goes, comments aside.
#[derive(Clone, Copy, Debug, PartialEq, Eq)]
pub(crate) enum Head {
    /// It is `p cnf V C`, with the numbers of variables and clauses.
    Is { variables: u32, count: u32 },
    /// It has no line feed, and further bytes can make such a line of it.
    MayGrow,
    /// No further bytes can.
    Breaks,
}

/// How a line goes that is to be `p cnf V C`.
pub(crate) fn head_of(line: &[u8]) -> Head
    requires { EndsInFeed line.now ⊎ IsUnfinished line.now }
    ensures { IsHeadOf line.now result }
{
    if !line.starts_with(b"p") {
        return Head::Breaks;
    }
    let Some((word, rest)) = first_word(line) else {
        return Head::Breaks;
    };
    if !is_word(word, b"p") {
        return Head::Breaks;
    }
    head_behind_p(line, rest)
}

// The same, where `p` was its first word, and the rest stands behind.
fn head_behind_p(line: &[u8], rest: &[u8]) -> Head
    requires shape { EndsInFeed line.now ⊎ IsUnfinished line.now }
    requires marked { begins_with 112 line.now ≡ true }
    requires up_to { UpTo [] line.now rest.now (codes "p" ∷ []) }
    ensures { IsHeadOf line.now result }
{
    let Some((word, after)) = first_word(rest) else {
        return missing(line);
    };
    if is_word(word, b"cnf") {
        return head_behind_cnf(line, after);
    }
    if !after.is_empty() {
        return Head::Breaks;
    }
    if is_word(word, b"c") {
        return Head::MayGrow;
    }
    if is_word(word, b"cn") {
        return Head::MayGrow;
    }
    Head::Breaks
}

// The same behind `p cnf`.
fn head_behind_cnf(line: &[u8], rest: &[u8]) -> Head
    requires shape { EndsInFeed line.now ⊎ IsUnfinished line.now }
    requires marked { begins_with 112 line.now ≡ true }
    requires up_to { UpTo [] line.now rest.now (codes "p" ∷ codes "cnf" ∷ []) }
    ensures { IsHeadOf line.now result }
{
    let Some((word, after)) = first_word(rest) else {
        return missing(line);
    };
    let Some(variables) = number_of(word, u64::from(MOST)) else {
        return Head::Breaks;
    };
    head_behind_variables(line, after, variables as u32)
}

// The same behind the number of variables.
fn head_behind_variables(line: &[u8], rest: &[u8], variables: u32) -> Head
    requires shape { EndsInFeed line.now ⊎ IsUnfinished line.now }
    requires marked { begins_with 112 line.now ≡ true }
    requires few { variables ≤ most }
    requires up_to { UpTo [] line.now rest.now (codes "p" ∷ codes "cnf" ∷ decimal variables ∷ []) }
    ensures { IsHeadOf line.now result }
{
    let Some((word, after)) = first_word(rest) else {
        return missing(line);
    };
    let Some(count) = number_of(word, u64::from(MOST)) else {
        return Head::Breaks;
    };
    match first_word(after) {
        Some(_) => Head::Breaks,
        None => Head::Is {
            variables,
            count: count as u32,
        },
    }
}

// What a line is that begins as a head does and lacks a word.
fn missing(line: &[u8]) -> Head
    requires { EndsInFeed line.now ⊎ IsUnfinished line.now }
    ensures { LacksWord line.now result }
{
    if line.contains(&b'\n') {
        Head::Breaks
    } else {
        Head::MayGrow
    }
}

/// Whether these are the bytes of that word.
pub(crate) fn is_word(bytes: &[u8], word: &[u8]) -> bool
    ensures { IsTrue result ↔ (bytes.now ≡ word.now) }
{
    bytes == word
}
