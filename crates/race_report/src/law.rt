//! What reports claim, as the contracts of functions that do nothing.

ghost use Rattle.std.specs.Prelude.{◌≡◌, ◌++◌, ℕ, Bool, List};
ghost use Rattle.text_lines.specs.Whole.{HasLine};
ghost use Rattle.board_core.specs.Boards.{BoardOf};
ghost use Rattle.report_text.specs.declared.report.Report.{Report};
ghost use Rattle.report_text.specs.declared.report.Last.TheVariants as last;
ghost use Rattle.report_text.specs.declared.report.ReportLine.{ReportLine};
ghost use Rattle.report_text.specs.declared.report.ReportLine.TheVariants as variants;
ghost use Rattle.report_text.specs.Texts.{line_text, lines_text, report_text};
ghost use Rattle.report_text.specs.WholeLines.{IsLine};
ghost use Rattle.race_report.specs.Telling.{IsRace, Tells, TellsSoFar};
ghost use Rattle.race_report.specs.Claims.{LineHolds, LinesHold, EndHolds, ReportHolds};

/// Whatever the race of a program was, a report that tells it claims nothing that is not so of the program's runs: its
/// bounds are above every run that is defined and keeps the bounds of its loops, and never rise; the costs that it
/// tells to be found are costs of runs, and never fall; and where it is exact, the run of its input costs the bound. So
/// also where it has no end yet.
pub fn reports_hold()
    ensures whole { (watched : Bool) (b : BoardOf) (r : Report) → IsRace b → Tells watched b r
        → ReportHolds b.setup.rows.plan.program b.setup.rows.plan.costs r }
    ensures begun { (watched : Bool) (b : BoardOf) (lines : List ReportLine) → IsRace b → TellsSoFar watched b lines
        → LinesHold b.setup.rows.plan.program b.setup.rows.plan.costs lines }
{}

/// In bytes that begin the text of such a report, or the lines of one that has no end yet, each line that stands there
/// whole holds: so a text that was cut short claims nothing that is not so. And where the line of an exact bound and
/// that of an input stand there one behind the other, the run of that input costs the bound, which no run exceeds.
pub fn whole_lines_hold()
    ensures of_report { (watched : Bool) (b : BoardOf) (r : Report) (text more : List ℕ) (line : ReportLine) → IsRace b
        → Tells watched b r → IsLine line → report_text r ≡ text ++ more → HasLine text (line_text line)
        → LineHolds b.setup.rows.plan.program b.setup.rows.plan.costs line }
    ensures so_far { (watched : Bool) (b : BoardOf) (lines : List ReportLine) (text more : List ℕ) (line : ReportLine)
        → IsRace b → TellsSoFar watched b lines → IsLine line → lines_text lines ≡ text ++ more
        → HasLine text (line_text line) → LineHolds b.setup.rows.plan.program b.setup.rows.plan.costs line }
    ensures exact { (watched : Bool) (b : BoardOf) (r : Report) (text more : List ℕ) (bound : ℕ) (input : List ℕ)
        → IsRace b → Tells watched b r → IsLine (variants.Exact bound) → IsLine (variants.Input input)
        → report_text r ≡ text ++ more
        → HasLine text (line_text (variants.Exact bound) ++ line_text (variants.Input input))
        → EndHolds b.setup.rows.plan.program b.setup.rows.plan.costs (last.Exact bound input) }
{}
