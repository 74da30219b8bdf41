//! Words: what stands between blanks, tabs and line feeds.

ghost use Rattle.std.specs.Prelude.{◌≡◌, ◌<◌, ◌≤◌, true, false, take, length, slice_index, IfNone, IfSome};
ghost use Rattle.cnf_form.specs.Forms as forms;
ghost use Rattle.cnf_form.specs.Words.{AreGaps, IsSolid, CutsWord};

/// The first word of a text, and what stands behind it.
pub(crate) fn first_word(text: &[u8]) -> Option<(&[u8], &[u8])>
    ensures none { IfNone result (AreGaps text.now) }
    ensures some { IfSome result (λ cut. CutsWord text.now cut.0.now cut.1.now) }
{
    let start = gap_len(text);
    if start == text.len() {
        return None;
    }
    let text = &text[start..];
    Some(text.split_at(word_len(text)))
}

// How many gaps a text begins with.
fn gap_len(text: &[u8]) -> usize
    ensures within { result ≤ length text.now }
    ensures before { AreGaps (take result text.now) }
    ensures end { result < length text.now → forms.is_gap (slice_index text.now result) ≡ false }
{
    for (i, byte) in text.iter().enumerate() {
        if !is_gap(*byte) {
            return i;
        }
    }
    text.len()
}

/// How many bytes stand before the first gap.
pub(crate) fn word_len(text: &[u8]) -> usize
    ensures within { result ≤ length text.now }
    ensures before { IsSolid (take result text.now) }
    ensures end { result < length text.now → forms.is_gap (slice_index text.now result) ≡ true }
{
    for (i, byte) in text.iter().enumerate() {
        if is_gap(*byte) {
            return i;
        }
    }
    text.len()
}

fn is_gap(byte: u8) -> bool
    ensures { result ≡ forms.is_gap byte }
{
    byte == b' ' || byte == b'\t' || byte == b'\n'
}
