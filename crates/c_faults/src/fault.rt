//! Faults and refusals.

ghost use Rattle.std.specs.Prelude.{◌≡◌};
ghost use Rattle.c_tree.specs.Checking.Refusals.{fault_number};
ghost use Rattle.c_faults.specs.Verdicts.{fault_kind, refusal_of, precedes};

/// What is wrong, without its place, in the order in which faults are told.
#[derive(Clone, Copy)]
pub enum Fault {
    NoName,
    Twice,
    Kind,
    Arity,
    NoValue,
    Const,
    Stray,
    NoBound,
    BoundRange,
    NoEntry,
    LaterCall,
    ArrayLength,
    Inputs,
    NoInit,
    Span,
}

impl Fault {
    // Its number in the order in which faults are told.
    fn number(self) -> u8
        ensures { result ≡ fault_number (fault_kind self) }
    {
        match self {
            Fault::NoName => 1,
            Fault::Twice => 2,
            Fault::Kind => 3,
            Fault::Arity => 4,
            Fault::NoValue => 5,
            Fault::Const => 6,
            Fault::Stray => 7,
            Fault::NoBound => 8,
            Fault::BoundRange => 9,
            Fault::NoEntry => 10,
            Fault::LaterCall => 11,
            Fault::ArrayLength => 12,
            Fault::Inputs => 13,
            Fault::NoInit => 14,
            Fault::Span => 15,
        }
    }
}

/// A fault and its place.
#[derive(Clone, Copy)]
pub struct CheckRefusal {
    pub fault: Fault,
    pub at: u32,
}

impl CheckRefusal {
    /// Whether this one is told before another.
    pub(crate) fn precedes(self, other: CheckRefusal) -> bool
        ensures { result ≡ precedes (refusal_of self) (refusal_of other) }
    {
        let first = self.fault.number();
        let second = other.fault.number();
        first < second || first == second && self.at < other.at
    }
}
