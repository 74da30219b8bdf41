//! The laws of the texts of reports.

ghost use Rattle.std.specs.Prelude.{◌≡◌, ◌++◌, ◌∷◌, List, ℕ, Option, None, Some, All};
ghost use Rattle.std.specs.List.{IsAmong};
ghost use Rattle.text_lines.specs.Whole.{HasLine};
ghost use Rattle.report_text.specs.declared.report.Report.{Report};
ghost use Rattle.report_text.specs.declared.report.Shown.{Shown};
ghost use Rattle.report_text.specs.declared.report.ReportLine.{ReportLine};
ghost use Rattle.report_text.specs.Texts.{line_text, lines_text, front_lines, value_lines, shown_lines, last_lines};
ghost use Rattle.report_text.specs.Texts.{report_lines, report_text};
ghost use Rattle.report_text.specs.Conditions.{IsReport, IsReportText, IsReadAs};
ghost use Rattle.report_text.specs.WholeLines.{IsLine};

/// A text says one report: no two are read from it.
pub fn one_report()
    ensures { (text : List ℕ) (one other : Report) → IsReadAs text one → IsReadAs text other → one ≡ other }
{}

/// A report that is written is read, and what is read of it has the same text.
pub fn read_again()
    ensures read { (r : Report) → IsReport r → IsReportText (report_text r) }
    ensures same { (r other : Report) → IsReport r → IsReadAs (report_text r) other → report_text other
        ≡ report_text r }
{}

/// The text of a report is that of its first two lines, then of the lines of each shown value behind the one before it,
/// and then of its end.
pub fn reports_are_pieces()
    ensures report { (r : Report) → report_text r ≡ lines_text (front_lines r.copies r.ipet)
        ++ (lines_text (shown_lines None r.shown) ++ lines_text (last_lines r.last)) }
    ensures value { (before : Option Shown) (value : Shown) (values : List Shown)
        → lines_text (shown_lines before (value ∷ values)) ≡ lines_text (value_lines before value)
        ++ lines_text (shown_lines (Some value) values) }
{}

/// In a text that begins the text of a report, or of some lines of reports, each line that stands there whole is one of
/// its lines.
pub fn whole_lines_are_lines()
    ensures of_report { (r : Report) (text more : List ℕ) (line : ReportLine) → IsReport r → IsLine line
        → report_text r ≡ text ++ more → HasLine text (line_text line) → IsAmong (report_lines r) line }
    ensures of_lines { (lines : List ReportLine) (text more : List ℕ) (line : ReportLine) → All IsLine lines → IsLine line
        → lines_text lines ≡ text ++ more → HasLine text (line_text line) → IsAmong lines line }
{}
