//! How a text goes that is to be words and a number.

ghost use Rattle.std.specs.Prelude.{◌≡◌, ◌≢◌, ◌≤◌, ◌<◌, ◌^◌, ◌++◌, [], ℕ, List, length, codes, MatchOption};
ghost use Rattle.std.specs.Fmt.{decimal};
ghost use Rattle.report_text.specs.Courses.{IsNumberCourse};

use crate::course::NumberCourse;
use crate::write::same;
use text_lines::number_of;

/// How a text goes that is to be these words, a number up to the limit but not the excepted one, and a line feed.
pub(crate) fn number_course(
    text: &[u8],
    words: &[u8],
    limit: u128,
    except: Option<u128>,
) -> NumberCourse
    requires { 0 < limit }
    ensures { IsNumberCourse words.now limit except text.now result }
{
    if text.starts_with(words) {
        return digits_course(&text[words.len()..], limit, except);
    }
    if words.starts_with(text) {
        NumberCourse::MayGrow
    } else {
        NumberCourse::Breaks
    }
}

// The same behind the words.
fn digits_course(text: &[u8], limit: u128, except: Option<u128>) -> NumberCourse
    requires { 0 < limit }
    ensures { IsNumberCourse [] limit except text.now result }
{
    match text {
        [] => NumberCourse::MayGrow,
        [digits @ .., b'\n'] => closed_course(digits, limit, except),
        _ => open_course(text, limit, except),
    }
}

// The same with a line feed behind the digits.
fn closed_course(digits: &[u8], limit: u128, except: Option<u128>) -> NumberCourse
    ensures { IsNumberCourse [] limit except (digits.now ++ codes "\n") result }
{
    let Some(number) = number_of(digits) else {
        return NumberCourse::Breaks;
    };
    if number > limit {
        return NumberCourse::Breaks;
    }
    if same(except, Some(number)) {
        return NumberCourse::Breaks;
    }
    NumberCourse::Is(number)
}

// The same where the digits may go on.
fn open_course(digits: &[u8], limit: u128, except: Option<u128>) -> NumberCourse
    requires some { 0 < length digits.now }
    requires open { (before : List ℕ) → digits.now ≢ before ++ codes "\n" }
    ensures { IsNumberCourse [] limit except digits.now result }
{
    let Some(number) = number_of(digits) else {
        return NumberCourse::Breaks;
    };
    if number > limit {
        return NumberCourse::Breaks;
    }
    if !same(except, Some(number)) {
        return NumberCourse::MayGrow;
    }
    if number == 0 {
        return NumberCourse::Breaks;
    }
    if number <= limit / 10 {
        NumberCourse::MayGrow
    } else {
        NumberCourse::Breaks
    }
}
