//! Why a unit is no program.

use c_faults::{CheckRefusal, Fault};
use c_tree::NoMemory;

/// Why a unit is no program. A place is the offset of a byte in the text, or the text's length. Of several faults the
/// one that stands first in this list is told, and of that one the smallest place. What is said of a fault is read in
/// a unit that has none before it in the list.
#[derive(Clone, Copy, Debug, PartialEq, Eq)]
pub enum CheckFault {
    /// A used name that is not in scope, or a called one that is no name of the unit in scope (C11 6.2.1).
    NoName { at: u32 },
    /// The later of two declarations of a name in one scope (6.7 paragraph 3). At file scope too, where C takes some.
    Twice { at: u32 },
    /// The name of an array without index, of a scalar with one, of a function that is not called or of a variable
    /// that is called, or an assignment to a `const` name (6.5.2.1, 6.5.2.2, 6.5.16).
    Kind { at: u32 },
    /// The name in a call with another number of arguments than parameters (6.5.2.2 paragraph 2).
    Arity { at: u32 },
    /// The name of a called `void` function whose result goes somewhere, or a `return` with a value in a `void`
    /// function or without one in another (6.3.2.2, 6.8.6.4).
    NoValue { at: u32 },
    /// The first token of an initialiser at file scope, of an expression in a list there or of an array's length that
    /// has a name in it, also where it is not evaluated, or is undefined (6.6, 6.7.9 paragraph 4).
    Const { at: u32 },
    /// A `break` or `continue` outside a loop (6.8.6.2, 6.8.6.3).
    Stray { at: u32 },
    /// The first word of a loop without a bound.
    NoBound { at: u32 },
    /// A bound outside 1 to 1,048,576.
    BoundRange { at: u32 },
    /// No function has the entry's name; the place is the text's length.
    NoEntry { at: u32 },
    /// The name of a called function that is the caller or is not defined above it.
    LaterCall { at: u32 },
    /// The name of an array with a length outside 1 to 64, with a list that is longer than it, or with neither length
    /// nor list.
    ArrayLength { at: u32 },
    /// The name that declares the 65th input number. The inputs are the entry function's parameters in order, then the
    /// extern variables in the order of their declarations, an array element by element.
    Inputs { at: u32 },
    /// The name of a local array without a list.
    NoInit { at: u32 },
    /// The name of a function whose span, the sum of the scales of its blocks with calls inlined, is above 2^64.
    Span { at: u32 },
    /// Want of memory.
    NoMemory,
}

impl From<NoMemory> for CheckFault {
    ghost use Rattle.std.specs.Prelude.{◌≡◌};
    ghost use Rattle.c_check.specs.declared.fault.CheckFault.TheVariants.{NoMemory};

    ghost from_gives = { λ _ e. e ≡ NoMemory };

    fn from(_: NoMemory) -> CheckFault {
        CheckFault::NoMemory
    }
}

impl From<CheckRefusal> for CheckFault {
    ghost use Rattle.std.specs.Prelude.{◌≡◌, Some};
    ghost use Rattle.c_faults.specs.Verdicts.{refusal_of};
    ghost use Rattle.c_check.specs.Answers.{fault_and_place};

    ghost from_gives = { λ r e. fault_and_place e ≡ Some (refusal_of r) };

    fn from(refusal: CheckRefusal) -> CheckFault {
        let at = refusal.at;
        match refusal.fault {
            Fault::NoName => CheckFault::NoName { at },
            Fault::Twice => CheckFault::Twice { at },
            Fault::Kind => CheckFault::Kind { at },
            Fault::Arity => CheckFault::Arity { at },
            Fault::NoValue => CheckFault::NoValue { at },
            Fault::Const => CheckFault::Const { at },
            Fault::Stray => CheckFault::Stray { at },
            Fault::NoBound => CheckFault::NoBound { at },
            Fault::BoundRange => CheckFault::BoundRange { at },
            Fault::NoEntry => CheckFault::NoEntry { at },
            Fault::LaterCall => CheckFault::LaterCall { at },
            Fault::ArrayLength => CheckFault::ArrayLength { at },
            Fault::Inputs => CheckFault::Inputs { at },
            Fault::NoInit => CheckFault::NoInit { at },
            Fault::Span => CheckFault::Span { at },
        }
    }
}
