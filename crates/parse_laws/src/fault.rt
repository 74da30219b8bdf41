//! Why reading stops.

use std::alloc::AllocError;

/// Why reading stopped. The number is how many tokens were not taken.
#[derive(Clone, Copy, Debug, PartialEq, Eq)]
pub enum ReadingFault {
    /// Memory was wanting.
    NoMemory,
    /// The next token is none that may stand there.
    Syntax(usize),
    /// The next token would make the tree too high.
    Depth(usize),
}

impl From<AllocError> for ReadingFault {
    ghost use Rattle.std.specs.Prelude.{◌≡◌};
    ghost use Rattle.parse_laws.specs.declared.fault.ReadingFault.TheVariants.{NoMemory};

    ghost from_gives = { λ _ e. e ≡ NoMemory };

    fn from(_: AllocError) -> ReadingFault {
        ReadingFault::NoMemory
    }
}
