//! The texts of logs, read.

ghost use Rattle.std.specs.Prelude.{◌<◌, ◌^◌, ◌≡◌, [], ◌∷◌, ◌++◌, length, IfOk, IfErr, OnOk};
ghost use Rattle.cnf_form.specs.Forms.{IsLogText, IsLogFile};
ghost use Rattle.cnf_form.specs.Faults.{IsFaultOf};
ghost use Rattle.cnf_form.specs.LogReading.{InLog};

use crate::form_fault::FormFault;
use crate::log::{Log, LogLine};
use crate::log_head::{LogHead, log_head_of};
use crate::log_line::{LogCourse, read_log_line};
use sqlite_items::Items;
use std::alloc::{AllocError, Global};
use text_lines::first_line;

/// The log that a text says. The text is read exactly as `write_log` writes it: the line `p log N`, and then N lines,
/// each with the literals of its clause, each followed by a blank, `0`, and per hint a blank and the hint's number plus
/// 1, and ` 0`. Single blanks stand between the numbers, none of which has a leading zero. N and the variables are at
/// most 2,147,483,647, no clause names a variable twice, and a hint has 32 bits.
pub fn read_log(alloc: Global, text: &[u8]) -> Result<Log, FormFault>
    requires { length text.now < 2 ^ 32 }
    ensures read { IfOk result (λ log. IsLogText text.now log.lines) }
    ensures fault { IfErr result (IsFaultOf IsLogFile text.now) }
{
    if text.is_empty() {
        return Err(FormFault::NotForm { line: 0 });
    }
    let (first, rest) = first_line(text);
    match log_head_of(first) {
        LogHead::Is { count } => read_lines(alloc, text, rest, count),
        LogHead::MayGrow => Err(FormFault::NotForm { line: 1 }),
        LogHead::Breaks => Err(FormFault::NotForm { line: 0 }),
    }
}

// The lines in the rest of a text.
fn read_lines(alloc: Global, text: &[u8], rest: &[u8], count: u32) -> Result<Log, FormFault>
    requires { InLog text.now rest.now count [] }
    ensures read { IfOk result (λ log. IsLogText text.now log.lines) }
    ensures fault { IfErr result (IsFaultOf IsLogFile text.now) }
{
    let mut lines = Vec::new(alloc);
    let mut seen = 0;
    let mut rest = rest;
    while !rest.is_empty() {
        let (first, after) = first_line(rest);
        if seen == count {
            return Err(FormFault::NotForm { line: seen + 1 });
        }
        match read_log_line(alloc, first)? {
            LogCourse::Is(line) => push_line(&mut lines, line)?,
            LogCourse::MayGrow => return Err(FormFault::NotForm { line: seen + 2 }),
            LogCourse::Breaks => return Err(FormFault::NotForm { line: seen + 1 }),
        }
        rest = after;
        seen += 1;
    }
    if seen != count {
        return Err(FormFault::NotForm { line: seen + 1 });
    }
    Ok(Log {
        lines: Items::from_vec(lines),
    })
}

fn push_line(lines: &mut Vec<LogLine>, line: LogLine) -> Result<(), AllocError>
    ensures { OnOk result (lines.new.items ≡ lines.old.items ++ line ∷ []) }
{
    lines.push(line)?;
    Ok(())
}
