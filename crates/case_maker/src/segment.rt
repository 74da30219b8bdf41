//! The segments of a made program.

ghost use Rattle.std.specs.Prelude.{◌≡◌, ◌≤◌, ◌<◌};
ghost use Rattle.case_maker.specs.Draws.{draw_state, draw};
ghost use Rattle.case_maker.specs.Segments.{drawn_variable, name_of, segment_of, segment_at, segment_blocks};

use crate::draws::Draws;

/// A parameter of the program.
#[derive(Clone, Copy)]
pub(crate) enum Variable {
    A,
    B,
}

impl Variable {
    fn drawn(draws: &mut Draws) -> Variable
        ensures variable { result ≡ drawn_variable (draw draws.old.state 1 2) }
        ensures state { draws.new.state ≡ draw_state draws.old.state 1 }
    {
        if draws.below(2) == 0 {
            Variable::A
        } else {
            Variable::B
        }
    }

    /// Its name in the text.
    pub(crate) fn name(self) -> &'static [u8]
        ensures { result.now ≡ name_of self }
    {
        match self {
            Variable::A => b"a",
            Variable::B => b"b",
        }
    }
}

/// A statement of the program, with what was drawn for it.
#[derive(Clone, Copy)]
pub(crate) enum Segment {
    /// `if (V > cu) r = r + 1u;`
    If(Variable, u16),
    /// `if (V == cu) r = r + 2u; else r = r ^ 1u;`
    IfElse(Variable, u16),
    /// `for (i = 0u; i < (V & Bu); i++) r = r + 3u;`, whose body runs at most B times
    For(Variable, u16),
}

impl Segment {
    /// The segment of the next three draws.
    pub(crate) fn drawn(draws: &mut Draws) -> Segment
        ensures segment { result ≡ segment_at draws.old.state 0 }
        ensures state { draws.new.state ≡ draw_state draws.old.state 3 }
    {
        let kind = draws.below(3);
        let variable = Variable::drawn(draws);
        let constant = draws.below(16);
        match kind {
            0 => Segment::If(variable, constant),
            1 => Segment::IfElse(variable, constant),
            _ => Segment::For(variable, 1 + constant % 4),
        }
    }

    /// The number of its blocks.
    pub(crate) fn blocks(self) -> u32
        ensures value { result ≡ segment_blocks self }
        ensures few { result ≤ 4 }
    {
        match self {
            Segment::If(..) => 2,
            Segment::IfElse(..) => 3,
            Segment::For(..) => 4,
        }
    }
}
