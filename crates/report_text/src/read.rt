//! The text of a report, read.

ghost use Rattle.std.specs.Prelude.{◌≡◌, ◌<◌, ◌^◌, ◌∷◌, ◌++◌, ◌⊎◌, ◌↔◌, IsTrue, [], length, IfOk, IfErr, OnOk};
ghost use Rattle.text_lines.specs.Cutting.{EndsInFeed, IsUnfinished};
ghost use Rattle.report_text.specs.Conditions.{IsReportText, IsReadAs};
ghost use Rattle.report_text.specs.Faults.{IsFaultOf};
ghost use Rattle.report_text.specs.Courses.{IsCourse};
ghost use Rattle.report_text.specs.Form as form;
ghost use Rattle.report_text.specs.declared.stage.Stage.TheVariants as stages;

use crate::assemble::assemble;
use crate::course::LineCourse;
use crate::kind::Kind;
use crate::line_course::{best_course, input_course, kind_course, spent_course, watching_course};
use crate::report::{Report, ReportLine, Shown};
use crate::report_fault::ReportFault;
use crate::stage::Stage;
use crate::write::best_of;
use std::alloc::{AllocError, Global};
use text_lines::first_line;

/// The report that a text says, as `lines` writes it. Of the lists of shown values that have this text it is the
/// shortest: a line `found` right behind a line `bound` belongs to the same value. Every line ends with a line feed,
/// the words and numbers of a line have one blank between them, and numbers have no leading zero. The number of
/// `blocks` and the limit have 32 bits, costs have 128.
pub fn read_report(alloc: Global, text: &[u8]) -> Result<Report, ReportFault>
    requires { length text.now < 2 ^ 32 }
    ensures read { IfOk result (IsReadAs text.now) }
    ensures fault { IfErr result (IsFaultOf IsReportText text.now) }
{
    let lines = read_lines(alloc, text)?;
    Ok(assemble(alloc, lines.as_slice())?)
}

// The lines of a report's text, in order, or the first line at which the text leaves the form of a report.
fn read_lines(alloc: Global, text: &[u8]) -> Result<Vec<ReportLine>, ReportFault>
    requires { length text.now < 2 ^ 32 }
    ensures read { IfOk result (λ lines. form.IsFormOf text.now lines.items) }
    ensures fault { IfErr result (IsFaultOf IsReportText text.now) }
{
    let mut lines = Vec::new(alloc);
    let mut stage = Stage::Start;
    let mut seen = 0;
    let mut rest = text;
    while !rest.is_empty() {
        let (first, after) = first_line(rest);
        match course_of(alloc, stage, first)? {
            LineCourse::Is(line) => {
                stage = next(stage, &line);
                push_line(&mut lines, line)?;
            }
            LineCourse::MayGrow => return Err(ReportFault::NotReport { line: seen + 1 }),
            LineCourse::Breaks => return Err(ReportFault::NotReport { line: seen }),
        }
        rest = after;
        seen += 1;
    }
    if !is_whole(stage) {
        return Err(ReportFault::NotReport { line: seen });
    }
    Ok(lines)
}

fn is_whole(stage: Stage) -> bool
    ensures { IsTrue result ↔ (stage ≡ stages.Whole) }
{
    match stage {
        Stage::Whole => true,
        _ => false,
    }
}

fn push_line(lines: &mut Vec<ReportLine>, line: ReportLine) -> Result<(), AllocError>
    ensures { OnOk result (lines.new.items ≡ lines.old.items ++ line ∷ []) }
{
    lines.push(line)?;
    Ok(())
}

// How a text goes that is to be the next line.
fn course_of(alloc: Global, stage: Stage, text: &[u8]) -> Result<LineCourse, AllocError>
    requires { EndsInFeed text.now ⊎ IsUnfinished text.now }
    ensures { IfOk result (IsCourse (form.Allows stage) text.now) }
{
    match stage {
        Stage::Start => Ok(kind_course(text, Kind::Copies, None)),
        Stage::BehindCopies => Ok(kind_course(text, Kind::Ipet, None)),
        Stage::Watching(before) => Ok(watching_course(text, before)),
        Stage::BehindExact => input_course(alloc, text),
        Stage::BehindInexact => Ok(best_course(text)),
        Stage::BehindBest => Ok(spent_course(text)),
        Stage::Whole => Ok(LineCourse::Breaks),
    }
}

// How far the lines have come with this one.
fn next(stage: Stage, line: &ReportLine) -> Stage
    ensures { result ≡ form.next stage line.now }
{
    match stage {
        Stage::Start => Stage::BehindCopies,
        Stage::BehindCopies => Stage::Watching(None),
        Stage::Watching(before) => next_watching(before, line),
        Stage::BehindInexact => Stage::BehindBest,
        Stage::BehindExact => Stage::Whole,
        Stage::BehindBest => Stage::Whole,
        Stage::Whole => Stage::Whole,
    }
}

fn next_watching(before: Option<Shown>, line: &ReportLine) -> Stage
    ensures { result ≡ form.next (stages.Watching before) line.now }
{
    match line {
        ReportLine::Bound(bound) => Stage::Watching(Some(Shown {
            bound: *bound,
            best: best_of(before),
        })),
        ReportLine::Found(cost) => next_found(before, *cost),
        ReportLine::Exact(_) => Stage::BehindExact,
        ReportLine::Inexact(_) => Stage::BehindInexact,
        _ => Stage::Whole,
    }
}

fn next_found(before: Option<Shown>, cost: u128) -> Stage
    ensures { result ≡ form.next (stages.Watching before) (ReportLine.Found cost) }
{
    match before {
        Some(value) => Stage::Watching(Some(Shown {
            bound: value.bound,
            best: Some(cost),
        })),
        None => Stage::Whole,
    }
}
