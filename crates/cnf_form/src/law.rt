//! The laws of the texts of formulas and logs.

ghost use Rattle.std.specs.Prelude.{◌≡◌, ◌≤◌, ℕ, ℤ, List, length, All};
ghost use Rattle.cnf_form.specs.declared.log.LogLine.{LogLine};
ghost use Rattle.cnf_form.specs.Literals.{most};
ghost use Rattle.cnf_form.specs.Forms.{IsFormula, IsCnfText, IsLogLine, IsLogText};
ghost use Rattle.cnf_form.specs.Texts.{cnf_text, log_text};

/// A text is that of at most one formula.
pub fn one_formula()
    ensures { (text : List ℕ) (v w : ℕ) (cs ds : List (List ℤ)) → IsCnfText text v cs → IsCnfText text w ds → (v ≡ w)
        × (cs ≡ ds) }
{}

/// The written text of a formula is a text of the form, and that of this formula alone: it is read again to an equal
/// one.
pub fn read_again()
    ensures form { (v : ℕ) (cs : List (List ℤ)) → IsFormula v cs → IsCnfText (cnf_text v cs) v cs }
    ensures same { (v w : ℕ) (cs ds : List (List ℤ)) → IsFormula v cs → IsCnfText (cnf_text v cs) w ds → (v ≡ w)
        × (cs ≡ ds) }
{}

/// A text is that of at most one log.
pub fn one_log()
    ensures { (text : List ℕ) (cs ds : List LogLine) → IsLogText text cs → IsLogText text ds → cs ≡ ds }
{}

/// The written text of a log is a text of the form, and that of this log alone: it is read again to an equal one.
pub fn read_log_again()
    ensures form { (lines : List LogLine) → length lines ≤ most → All IsLogLine lines → IsLogText (log_text lines)
        lines }
    ensures same { (lines others : List LogLine) → length lines ≤ most → All IsLogLine lines
        → IsLogText (log_text lines) others → lines ≡ others }
{}
