//! The ways in which statements end (C11 6.8.6).

ghost use Rattle.std.specs.Prelude.{◌≡◌};
ghost use Rattle.c_ways.specs.Ways as ways;

use c_semantics::convert;
use c_tree::{Ty, Value, Way};

/// Whether a body that ended in this way is followed by another turn.
pub fn goes_on(way: Way) -> bool
    ensures { result ≡ ways.has_next_turn way }
{
    match way {
        Way::Next => true,
        Way::Continue => true,
        Way::Break => false,
        Way::Return(_) => false,
    }
}

/// The way in which a loop ends whose body ended in this way.
pub fn past(way: Way) -> Way
    ensures { result ≡ ways.way_past_loop way }
{
    match way {
        Way::Break => Way::Next,
        _ => way,
    }
}

/// What a function of this result comes back with whose list ended in this way.
pub fn returned(ty: Option<Ty>, way: Way) -> Option<Value>
    ensures { result ≡ ways.way_result ty way }
{
    let Way::Return(value) = way else {
        return None;
    };
    Some(convert(ty?, value?))
}
