//! How a text goes that is to be the next line of a report.

ghost use Rattle.std.specs.Prelude.{◌≡◌, ◌++◌, ◌↔◌, ◌≢◌, ◌<◌, None, ◌⊎◌, ℕ, List, length, codes, IsTrue, IfOk};
ghost use Rattle.report_text.specs.Texts.{line_text};
ghost use Rattle.report_text.specs.Courses.{IsCourse, IsOfKind};
ghost use Rattle.text_lines.specs.Cutting.{EndsInFeed, IsUnfinished};
ghost use Rattle.report_text.specs.Form.{Allows, IsEnd};
ghost use Rattle.report_text.specs.declared.stage.Stage.TheVariants as stage;

use crate::course::{LineCourse, NumberCourse, either};
use crate::kind::{Kind, limit_of, line_of, words_of};
use crate::number::number_course;
use crate::report::{ReportLine, Shown, Spent};
use sqlite_items::Items;
use std::alloc::{AllocError, Global};

/// How a text goes that is to be a line of this kind, with another number than the excepted one.
pub(crate) fn kind_course(text: &[u8], kind: Kind, except: Option<u128>) -> LineCourse
    ensures { IsCourse (IsOfKind kind except) text.now result }
{
    match number_course(text, words_of(kind), limit_of(kind), except) {
        NumberCourse::Is(number) => LineCourse::Is(line_of(kind, number)),
        NumberCourse::MayGrow => LineCourse::MayGrow,
        NumberCourse::Breaks => LineCourse::Breaks,
    }
}

/// How a text goes that is to be this line, whose text is given.
pub(crate) fn fixed_course(text: &[u8], whole: &[u8], line: ReportLine) -> LineCourse
    requires { whole.now ≡ line_text line }
    ensures { IsCourse (λ other. other ≡ line) text.now result }
{
    if !whole.starts_with(text) {
        return LineCourse::Breaks;
    }
    if text.len() < whole.len() {
        LineCourse::MayGrow
    } else {
        LineCourse::Is(line)
    }
}

/// How a text goes that is to be the next line among the shown values, behind this one.
pub(crate) fn watching_course(text: &[u8], before: Option<Shown>) -> LineCourse
    ensures { IsCourse (Allows (stage.Watching before)) text.now result }
{
    match before {
        None => {
            let bound = kind_course(text, Kind::Bound, None);
            either(bound, either(no_bound_course(text), end_course(text)))
        }
        Some(value) => {
            let found = kind_course(text, Kind::Found, value.best);
            let rest = either(found, end_course(text));
            match value.bound {
                None => either(kind_course(text, Kind::Bound, None), rest),
                Some(bound) => {
                    let other = kind_course(text, Kind::Bound, Some(bound));
                    either(other, either(no_bound_course(text), rest))
                }
            }
        }
    }
}

fn no_bound_course(text: &[u8]) -> LineCourse
    ensures { IsCourse (λ line. line ≡ ReportLine.Bound None) text.now result }
{
    fixed_course(text, b"bound none\n", ReportLine::Bound(None))
}

// The same of the first line of the end.
fn end_course(text: &[u8]) -> LineCourse
    ensures { IsCourse IsEnd text.now result }
{
    let exact = kind_course(text, Kind::Exact, None);
    let inexact = kind_course(text, Kind::Inexact, None);
    let nothing = fixed_course(text, b"none\n", ReportLine::Nothing);
    either(exact, either(inexact, nothing))
}

/// How a text goes that is to be the best of an inexact end.
pub(crate) fn best_course(text: &[u8]) -> LineCourse
    ensures { IsCourse (Allows stage.BehindInexact) text.now result }
{
    let best = kind_course(text, Kind::Best, None);
    let none = fixed_course(text, b"best none\n", ReportLine::Best(None));
    either(best, none)
}

/// How a text goes that is to be the line of what was spent.
pub(crate) fn spent_course(text: &[u8]) -> LineCourse
    ensures { IsCourse (Allows stage.BehindBest) text.now result }
{
    let turns = kind_course(text, Kind::Turns, None);
    let conflicts = kind_course(text, Kind::Conflicts, None);
    let line = ReportLine::Spent(Spent::Weight, 262_144);
    let weight = fixed_course(text, b"spent weight 262144\n", line);
    either(turns, either(conflicts, weight))
}

/// How a text goes that is to be the input line.
pub(crate) fn input_course(alloc: Global, text: &[u8]) -> Result<LineCourse, AllocError>
    requires { EndsInFeed text.now ⊎ IsUnfinished text.now }
    ensures { IfOk result (IsCourse (Allows stage.BehindExact) text.now) }
{
    if text.starts_with(b"input ") {
        return behind_blank(alloc, &text[6..]);
    }
    if is_bytes(text, b"input\n") {
        return Ok(LineCourse::Is(ReportLine::Input(Items::from_vec(Vec::new(alloc)))));
    }
    if b"input".starts_with(text) {
        Ok(LineCourse::MayGrow)
    } else {
        Ok(LineCourse::Breaks)
    }
}

fn is_bytes(text: &[u8], bytes: &[u8]) -> bool
    ensures { IsTrue result ↔ (text.now ≡ bytes.now) }
{
    text == bytes
}

// The same behind the blank.
fn behind_blank(alloc: Global, behind: &[u8]) -> Result<LineCourse, AllocError>
    requires { EndsInFeed (codes "input " ++ behind.now) ⊎ IsUnfinished (codes "input " ++ behind.now) }
    ensures { IfOk result (IsCourse (Allows stage.BehindExact) (codes "input " ++ behind.now)) }
{
    let Some((last, input)) = behind.split_last() else {
        return Ok(LineCourse::MayGrow);
    };
    if *last != b'\n' {
        return Ok(LineCourse::MayGrow);
    }
    if input.is_empty() {
        return Ok(LineCourse::Breaks);
    }
    let input = Vec::from_slice(alloc, input)?;
    Ok(LineCourse::Is(ReportLine::Input(Items::from_vec(input))))
}
