//! The numbers that a case is made of.

ghost use Rattle.std.specs.Prelude.{◌≡◌, ◌<◌};
ghost use Rattle.case_maker.specs.Draws.{next_state, drawn_at};

/// Draws numbers one after another: a linear congruential generator of modulus 65,536, whose lowest three bits are not
/// used.
#[derive(Drop)]
pub(crate) struct Draws {
    pub(crate) state: u16,
}

impl Draws {
    /// The draws of the case with this number.
    pub(crate) fn new(case: u16) -> Draws
        ensures { result.state ≡ case }
    {
        Draws { state: case }
    }

    /// The next number, which is below `limit`.
    pub(crate) fn below(&mut self, limit: u16) -> u16
        requires { 0 < limit }
        ensures state { self.new.state ≡ next_state self.old.state }
        ensures number { result ≡ drawn_at (next_state self.old.state) limit }
        ensures below { result < limit }
    {
        self.state = self.state.wrapping_mul(25_173).wrapping_add(13_849);
        (self.state / 8) % limit
    }
}
