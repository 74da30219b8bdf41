//! A report, from the lines of its text.

ghost use Rattle.std.specs.Prelude.{◌≡◌, ◌<◌, ◌+◌, ◌∷◌, [], None, Some, length, IfOk, IfSome, IfNone};
ghost use Rattle.report_text.specs.Texts.{last_lines};
ghost use Rattle.report_text.specs.Form.{Leads};
ghost use Rattle.report_text.specs.Values as spec;
ghost use Rattle.report_text.specs.Values.{values_of, end_of, BeginsNoReport, BeginsNoBest, IsReportOf, IsEnding};
ghost use Rattle.report_text.specs.declared.stage.Stage.TheVariants as stages;

use crate::report::{Last, Report, ReportLine, Shown};
use crate::write::best_of;
use sqlite_items::Items;
use std::alloc::{AllocError, Global};

/// The report with these lines that has the fewest shown values.
pub(crate) fn assemble(alloc: Global, lines: &[ReportLine]) -> Result<Report, AllocError>
    requires { Leads stages.Start lines.now stages.Whole }
    ensures { IfOk result (IsReportOf lines.now) }
{
    let Some((copies, ipet, rest)) = front(lines) else {
        unreachable!()
    };
    let shown = values(alloc, rest)?;
    let last = last_of(alloc, ending(rest))?;
    Ok(Report {
        copies,
        ipet,
        shown: Items::from_vec(shown),
        last,
    })
}

// The numbers of the first two lines, and the lines behind them.
fn front(lines: &[ReportLine]) -> Option<(u32, u128, &[ReportLine])>
    ensures none { IfNone result (BeginsNoReport lines.now) }
    ensures some { IfSome result (λ cut. lines.now ≡ ReportLine.Copies cut.0 ∷ ReportLine.Ipet cut.1 ∷ cut.2.now) }
{
    match lines {
        [
            ReportLine::Copies(copies),
            ReportLine::Ipet(ipet),
            rest @ ..,
        ] => { Some((*copies, *ipet, rest)) }
        _ => None,
    }
}

// The shown values.
fn values(alloc: Global, lines: &[ReportLine]) -> Result<Vec<Shown>, AllocError>
    ensures { IfOk result (λ values. values.items ≡ values_of None lines.now) }
{
    let mut values = Vec::new(alloc);
    let mut before = None;
    let mut rest = lines;
    while let Some((value, after)) = next_value(before, rest) {
        values.push(value)?;
        before = Some(value);
        rest = after;
    }
    Ok(values)
}

// The next shown value, and the lines behind it.
fn next_value(before: Option<Shown>, lines: &[ReportLine]) -> Option<(Shown, &[ReportLine])>
    ensures none { IfNone result (values_of before lines.now ≡ []) }
    ensures value { IfSome result (λ next. values_of before lines.now ≡ next.0 ∷ values_of (Some next.0) next.1.now) }
    ensures shorter { IfSome result (λ next. length next.1.now < length lines.now) }
{
    let (first, rest) = lines.split_first()?;
    match first {
        ReportLine::Bound(bound) => Some(bound_value(before, *bound, rest)),
        ReportLine::Found(cost) => {
            let bound = bound_of(before);
            let best = Some(*cost);
            Some((Shown { bound, best }, rest))
        }
        _ => None,
    }
}

fn bound_of(before: Option<Shown>) -> Option<u128>
    ensures { result ≡ spec.bound_of before }
{
    match before {
        Some(value) => value.bound,
        None => None,
    }
}

// The value of the line of a bound.
fn bound_value(
    before: Option<Shown>,
    bound: Option<u128>,
    lines: &[ReportLine],
) -> (Shown, &[ReportLine])
    ensures value { values_of before (ReportLine.Bound bound ∷ lines.now) ≡ result.0 ∷ values_of (Some result.0)
        result.1.now }
    ensures shorter { length result.1.now < length lines.now + 1 }
{
    match best_behind(lines) {
        Some((cost, rest)) => {
            let best = Some(cost);
            (Shown { bound, best }, rest)
        }
        None => {
            let best = best_of(before);
            (Shown { bound, best }, lines)
        }
    }
}

// The best of the first line, where it has one, and the lines behind it.
fn best_behind(lines: &[ReportLine]) -> Option<(u128, &[ReportLine])>
    ensures none { IfNone result (BeginsNoBest lines.now) }
    ensures some { IfSome result (λ cut. lines.now ≡ ReportLine.Found cut.0 ∷ cut.1.now) }
{
    match lines {
        [ReportLine::Found(cost), rest @ ..] => Some((*cost, rest)),
        _ => None,
    }
}

// The lines behind those of the shown values.
fn ending(lines: &[ReportLine]) -> &[ReportLine]
    ensures { result.now ≡ end_of lines.now }
{
    let mut rest = lines;
    while let Some(after) = behind_value(rest) {
        rest = after;
    }
    rest
}

// The lines behind one of a bound or a best.
fn behind_value(lines: &[ReportLine]) -> Option<&[ReportLine]>
    ensures none { IfNone result (end_of lines.now ≡ lines.now) }
    ensures same { IfSome result (λ rest. end_of lines.now ≡ end_of rest.now) }
    ensures shorter { IfSome result (λ rest. length rest.now < length lines.now) }
{
    match lines {
        [ReportLine::Bound(_), rest @ ..] => Some(rest),
        [ReportLine::Found(_), rest @ ..] => Some(rest),
        _ => None,
    }
}

// The end with these lines.
fn last_of(alloc: Global, lines: &[ReportLine]) -> Result<Last, AllocError>
    requires { IsEnding lines.now }
    ensures { IfOk result (λ last. last_lines last ≡ lines.now) }
{
    match lines {
        [ReportLine::Exact(bound), ReportLine::Input(input)] => {
            let input = Items::from_slice(alloc, input.as_slice())?;
            Ok(Last::Exact(*bound, input))
        }
        [
            ReportLine::Inexact(bound),
            ReportLine::Best(best),
            ReportLine::Spent(spent, limit),
        ] => Ok(Last::Inexact {
            bound: *bound,
            best: *best,
            spent: *spent,
            limit: *limit,
        }),
        _ => Ok(Last::Nothing),
    }
}
