//! Clauses that are drawn by a small generator.

ghost use Rattle.std.specs.Prelude.{◌≤◌, ◌<◌, ◌+◌};

/// A linear congruential generator modulo 2^64: each state is the last one times `FACTOR` plus `STEP`, and a number is
/// drawn from its upper 32 bits.
#[derive(Drop)]
pub(crate) struct Draws {
    state: u64,
}

const FACTOR: u64 = 6_364_136_223_846_793_005;

const STEP: u64 = 1_442_695_040_888_963_407;

impl Draws {
    pub(crate) fn new(seed: u32) -> Draws {
        Draws { state: seed as u64 }
    }

    // A number below the bound.
    fn below(&mut self, bound: u32) -> u32
        requires { 0 < bound }
        ensures { result < bound }
    {
        self.state = self.state.wrapping_mul(FACTOR).wrapping_add(STEP);
        (self.state >> 32) as u32 % bound
    }

    // A literal of the variable.
    fn signed(&mut self, variable: u32) -> i32
        requires { variable < 1000 }
    {
        if self.below(2) == 0 {
            variable as i32 + 1
        } else {
            -(variable as i32 + 1)
        }
    }

    /// Three literals of different variables. The variables are drawn first and then the signs.
    pub(crate) fn clause(&mut self, variables: u32) -> [i32; 3]
        requires some { 2 < variables }
        requires few { variables ≤ 1000 }
    {
        let one = self.below(variables);
        let two = other_than(one, self.below(variables - 1));
        let (low, high) = if one < two { (one, two) } else { (two, one) };
        let three = other_than(high, other_than(low, self.below(variables - 2)));
        [self.signed(one), self.signed(two), self.signed(three)]
    }
}

// The number, or the next one where it is not below this one.
fn other_than(this: u32, number: u32) -> u32
    requires { number < 1000 }
    ensures least { number ≤ result }
    ensures most { result ≤ number + 1 }
{
    if number < this { number } else { number + 1 }
}
