//! Words that are not 0.

ghost use Rattle.std.specs.Prelude.{◌≡◌, length, slice_index};
ghost use Rattle.cond_laws.specs.Judged.{all_hold};
ghost use Rattle.cond_laws.specs.Conditions.{AllBelow};

/// Whether the words of all these terms are nonzero, where `words` has those of all terms.
pub(crate) fn are_nonzero(words: &[u32], terms: &[u32]) -> bool
    requires { AllBelow (length words.now) terms.now }
    ensures { result ≡ all_hold (slice_index words.now) terms.now }
{
    for term in terms {
        if words[*term as usize] == 0 {
            return false;
        }
    }
    true
}
