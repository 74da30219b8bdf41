//! The rule of each operator.

ghost use Rattle.std.specs.Prelude.{length};
ghost use Rattle.bv_term.specs.Stores.{FitsOp};
ghost use Rattle.bv_fold.specs.Standing.{StandsFor};

use crate::bits::{both, differing, either};
use crate::choices::choice;
use crate::comparisons::{equal, less, less_signed};
use crate::products::{product, quotient, remainder, signed_quotient, signed_remainder};
use crate::shifts::{shifted_down, shifted_signed, shifted_up};
use crate::stand::Stand;
use crate::sums::{difference, opposite, sum, turned};
use bv_term::{Op, Terms};

/// What stands for an operator over terms that are there.
pub(crate) fn simplify(terms: &Terms, op: Op) -> Stand
    requires { FitsOp (length terms.now.inputs) (length terms.now.ops) op }
    ensures { StandsFor terms.now op result }
{
    match op {
        Op::Input(_) | Op::Const(_) => Stand::Operator(op),
        Op::Not(a) => turned(terms, a),
        Op::Neg(a) => opposite(terms, a),
        Op::Add(a, b) => sum(terms, a, b),
        Op::Sub(a, b) => difference(terms, a, b),
        Op::Mul(a, b) => product(terms, a, b),
        Op::DivU(a, b) => quotient(terms, a, b),
        Op::RemU(a, b) => remainder(terms, a, b),
        Op::DivS(a, b) => signed_quotient(terms, a, b),
        Op::RemS(a, b) => signed_remainder(terms, a, b),
        Op::Shl(a, b) => shifted_up(terms, a, b),
        Op::ShrU(a, b) => shifted_down(terms, a, b),
        Op::ShrS(a, b) => shifted_signed(terms, a, b),
        Op::And(a, b) => both(terms, a, b),
        Op::Or(a, b) => either(terms, a, b),
        Op::Xor(a, b) => differing(terms, a, b),
        Op::Eq(a, b) => equal(terms, a, b),
        Op::LtU(a, b) => less(terms, a, b),
        Op::LtS(a, b) => less_signed(terms, a, b),
        Op::Ite(c, a, b) => choice(terms, c, a, b),
    }
}
