//! The line `p log N`.

ghost use Rattle.std.specs.Prelude.{◌++◌, codes};
ghost use Rattle.cnf_form.specs.LogReading.{IsLogHeadOf, HasNoCut};

use crate::cnf::MOST;
use crate::head::is_word;
use crate::number::number_of;
use crate::token::cut_at;

/// How the first line of a log goes.
#[derive(Clone, Copy, Debug, PartialEq, Eq)]
pub(crate) enum LogHead {
    /// It is `p log N`, with the number of lines.
    Is { count: u32 },
    /// It is not, and further bytes can make such a line of it.
    MayGrow,
    /// No further bytes can.
    Breaks,
}

/// How a line goes that is to be `p log N`.
pub(crate) fn log_head_of(line: &[u8]) -> LogHead
    ensures { IsLogHeadOf line.now result }
{
    let mark = b"p log ".as_slice();
    if line.len() < mark.len() {
        return if is_word(line, &mark[..line.len()]) {
            LogHead::MayGrow
        } else {
            LogHead::Breaks
        };
    }
    let (begun, behind) = line.split_at(mark.len());
    if is_word(begun, mark) {
        head_behind_mark(behind)
    } else {
        LogHead::Breaks
    }
}

// The same, where this stands behind `p log `.
fn head_behind_mark(behind: &[u8]) -> LogHead
    ensures { IsLogHeadOf (codes "p log " ++ behind.now) result }
{
    let Some((digits, rest)) = cut_at(behind, b'\n') else {
        return open_head(behind);
    };
    let Some(count) = number_of(digits, u64::from(MOST)) else {
        return LogHead::Breaks;
    };
    if !rest.is_empty() {
        return LogHead::Breaks;
    }
    LogHead::Is {
        count: count as u32,
    }
}

// The same without a line feed.
fn open_head(behind: &[u8]) -> LogHead
    requires { HasNoCut 10 behind.now }
    ensures { IsLogHeadOf (codes "p log " ++ behind.now) result }
{
    if behind.is_empty() {
        return LogHead::MayGrow;
    }
    match number_of(behind, u64::from(MOST)) {
        Some(_) => LogHead::MayGrow,
        None => LogHead::Breaks,
    }
}
