//! Texts up to their first gap.

ghost use Rattle.std.specs.Prelude.{◌≡◌, true, IfNone, IfSome};
ghost use Rattle.cnf_form.specs.Forms as forms;
ghost use Rattle.cnf_form.specs.LogReading.{CutsAt, HasNoCut};

use crate::word::word_len;

/// What stands before the first blank, tab or line feed of a text, and what stands behind it, where it is this one.
pub(crate) fn cut_at(text: &[u8], gap: u8) -> Option<(&[u8], &[u8])>
    requires { forms.is_gap gap ≡ true }
    ensures none { IfNone result (HasNoCut gap text.now) }
    ensures some { IfSome result (λ cut. CutsAt gap text.now cut.0.now cut.1.now) }
{
    let end = word_len(text);
    if end == text.len() {
        return None;
    }
    if text[end] != gap {
        return None;
    }
    Some((&text[..end], &text[end + 1..]))
}
