//! Lines: each runs to and with its line feed, or to the end of the text.

ghost use Rattle.std.specs.Prelude.{◌≡◌, ◌<◌, ◌==◌, not, true, take, length, slice_index};
ghost use Rattle.text_lines.specs.Cutting.{HasNoFeed, CutsLine};

/// The first line of a text, and what stands behind it. Where the text has no line feed, all of it is the line.
pub fn first_line(text: &[u8]) -> (&[u8], &[u8])
    requires { 0 < length text.now }
    ensures { CutsLine text.now result.0.now result.1.now }
{
    for (i, byte) in text.iter().enumerate() {
        if *byte == b'\n' {
            return text.split_at(i + 1);
        }
    }
    text.split_at(text.len())
}
