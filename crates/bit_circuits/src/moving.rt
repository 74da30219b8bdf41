//! How a shift moves a word.

use crate::literal::Literal;
use std::alloc::{AllocError, Global};

/// How a shift moves a word.
#[derive(Clone, Copy, Debug)]
pub(crate) enum Move {
    /// To higher bits.
    Up,
    /// To lower bits, with copies of a bit at the top.
    Down(Literal),
}

impl Move {
    ghost use Rattle.std.specs.Prelude.{◌≡◌, ◌≤◌, IfOk, length};
    ghost use Rattle.bit_circuits.specs.Moves.{move_of};

    /// A word, moved by so many places.
    pub(crate) fn moved(
        &self,
        alloc: Global,
        places: usize,
        xs: &[Literal],
    ) -> Result<Vec<Literal>, AllocError>
        requires { places ≤ length xs.now }
        ensures { IfOk result (λ bits. bits.items ≡ move_of self.now places xs.now) }
    {
        match *self {
            Move::Up => moved_up(alloc, places, xs),
            Move::Down(fill) => moved_down(alloc, fill, places, xs),
        }
    }
}

ghost use Rattle.std.specs.Prelude.{◌≡◌, ◌≤◌, IfOk, length};
ghost use Rattle.bit_circuits.specs.Words.{moved_up as moved_up_of, moved_down as moved_down_of};

use crate::word::falses;

fn moved_up(alloc: Global, places: usize, xs: &[Literal]) -> Result<Vec<Literal>, AllocError>
    ensures { IfOk result (λ bits. bits.items ≡ moved_up_of places xs.now) }
{
    let mut bits = falses(alloc, places)?;
    bits.extend_from_slice(xs)?;
    bits.truncate(xs.len());
    Ok(bits)
}

fn moved_down(
    alloc: Global,
    fill: Literal,
    places: usize,
    xs: &[Literal],
) -> Result<Vec<Literal>, AllocError>
    requires { places ≤ length xs.now }
    ensures { IfOk result (λ bits. bits.items ≡ moved_down_of fill places xs.now) }
{
    let mut bits = Vec::from_slice(alloc, &xs[places..])?;
    let copies = vec![in alloc; fill; places]?;
    bits.extend_from_slice(copies.as_slice())?;
    Ok(bits)
}
