//! What stands for choices.

ghost use Rattle.std.specs.Prelude.{◌<◌, length};
ghost use Rattle.bv_term.specs.declared.op.Op.TheVariants as op;
ghost use Rattle.bv_fold.specs.Standing.{StandsFor};

use crate::known::{constant_at, is_constant, is_truth, negated_by};
use crate::stand::Stand;
use bv_term::{Op, Terms};

/// Of two equal terms it is that, on a constant one of both, between 1 and 0 the truth value that chooses, and on a
/// negated term the other way round.
pub(crate) fn choice(terms: &Terms, c: u32, a: u32, b: u32) -> Stand
    requires chosen_by { c < length terms.now.ops }
    requires left { a < length terms.now.ops }
    requires right { b < length terms.now.ops }
    ensures { StandsFor terms.now (op.Ite c a b) result }
{
    if a == b {
        Stand::Term(a)
    } else if let Some(word) = constant_at(terms, c) {
        Stand::Term(if word == 0 { b } else { a })
    } else if is_constant(terms, a, 1) && is_constant(terms, b, 0) && is_truth(terms, c) {
        Stand::Term(c)
    } else if let Some(x) = negated_by(terms, c) {
        Stand::Operator(Op::Ite(x, b, a))
    } else {
        Stand::Operator(Op::Ite(c, a, b))
    }
}
