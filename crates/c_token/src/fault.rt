//! Why a text cannot be split into tokens.

use std::alloc::AllocFailed;

/// Why a text cannot be split into tokens. Each place is the offset of a byte in the text.
#[derive(Clone, Copy, Debug, PartialEq, Eq)]
pub enum TokenFault {
    /// No token begins there, nor anything that separates tokens.
    Byte { at: u32 },
    /// A comment that begins there has no end (C11 6.4.9).
    Comment { at: u32 },
    /// The number run that begins there is no constant of the profile (C11 6.4.4.1).
    Number { at: u32 },
    /// The line of the `#` there is none of the permitted ones.
    Directive { at: u32 },
    /// Memory was wanting. It may come in place of any other answer.
    NoMemory,
}

impl<T: Drop> From<AllocFailed<T>> for TokenFault {
    ghost use Rattle.c_token.specs.declared.fault.TokenFault.TheVariants.{NoMemory};
    ghost use Rattle.std.specs.Prelude.{◌≡◌};

    ghost from_gives = { λ _ e. e ≡ NoMemory };

    fn from(_error: AllocFailed<T>) -> TokenFault {
        TokenFault::NoMemory
    }
}
