//! Which gate two bits have.

use crate::gate::Gate;
use crate::literal::Literal;

/// Which gate two bits have.
#[derive(Clone, Copy, Debug)]
pub(crate) enum Pair {
    And,
    Or,
    Xor,
    /// The first where this literal is true, and else the second.
    Choice(Literal),
}

impl Pair {
    ghost use Rattle.std.specs.Prelude.{◌≡◌};
    ghost use Rattle.bit_circuits.specs.Pairs.{gate_of};

    /// The gate of these two.
    pub(crate) fn gate_of(&self, x: Literal, y: Literal) -> Gate
        ensures { result ≡ gate_of self.now x y }
    {
        match *self {
            Pair::And => Gate::And(x, y),
            Pair::Or => Gate::Or(x, y),
            Pair::Xor => Gate::Xor(x, y),
            Pair::Choice(chooser) => Gate::Choice(chooser, x, y),
        }
    }
}
