//! One term is folded.

ghost use Rattle.std.specs.Prelude.{◌≡◌, ◌<◌, IfOk, length, slice_get};
ghost use Rattle.bv_term.specs.Stores.{AreTerms};
ghost use Rattle.bv_fold.specs.Folding.{IsExtended, IsConst};
ghost use Rattle.bv_fold.specs.Steps.{AreSame, AreWords, HasConstants, IsSame};

use crate::operands::{is_over_constants, over_folds};
use crate::putting::{put_constant, put_stand};
use crate::simplify::simplify;
use bv_term::Terms;
use c_tree::NoMemory;

/// Folds the next term: `folded` has the folds of the terms before it, and `words` the words of terms at one input.
/// Where the folds of its operands are constants, its word there is that at every input. `NoMemory` is want of memory,
/// also where the store is full.
pub(crate) fn fold_next(
    terms: &mut Terms,
    words: &[u32],
    folded: &[u32],
    term: u32,
) -> Result<u32, NoMemory>
    requires there { term < length terms.old.ops }
    requires next { length folded.now ≡ term }
    requires folds { AreSame terms.old folded.now }
    requires word { term < length words.now }
    requires words { AreWords terms.old words.now }
    ensures fits { AreTerms terms.old }
    ensures kept { IsExtended terms.old terms.new }
    ensures same { IfOk result (λ t. IsSame terms.new term t) }
    ensures constant { IfOk result (λ t. HasConstants terms.old.ops folded.now term
        → IsConst (slice_get terms.new.ops t)) }
{
    // Each operator of the store fits.
    terms.len();
    let op = over_folds(*terms.op(term), folded);
    if is_over_constants(terms, op) {
        put_constant(terms, words[term as usize])
    } else {
        let stand = simplify(terms, op);
        put_stand(terms, stand)
    }
}
