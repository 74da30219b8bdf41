//! Comments.

ghost use Rattle.std.specs.Prelude.{◌≡◌};
ghost use Rattle.cnf_form.specs.Forms.{begins_with};

/// Whether a line begins with `c`, which marks a comment.
pub(crate) fn is_comment(line: &[u8]) -> bool
    ensures { result ≡ begins_with 99 line.now }
{
    match line {
        [first, ..] => *first == b'c',
        [] => false,
    }
}
