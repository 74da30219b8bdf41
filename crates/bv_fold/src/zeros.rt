//! The words of terms at one input.

ghost use Rattle.std.specs.Prelude.{◌≡◌, IfOk, length};
ghost use Rattle.bv_fold.specs.Steps.{AreWords};

use bv_term::Terms;
use c_tree::{Input, NoMemory};
use sqlite_items::Items;
use std::alloc::Global;

/// The words of all terms where each number of the input is 0.
pub(crate) fn words_at_zeros(alloc: Global, terms: &Terms) -> Result<Vec<u32>, NoMemory>
    ensures count { IfOk result (λ ws. length ws.items ≡ length terms.now.ops) }
    ensures words { IfOk result (λ ws. AreWords terms.now ws.items) }
{
    let values = vec![in alloc; 0i64; terms.inputs().len()]?;
    let input = Input {
        values: Items::from_vec(values),
    };
    terms.values(&input)
}
