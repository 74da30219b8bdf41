//! Why the work stops.

use crate::refusal::{PlanRefusal, ProgramRefusal, Refusal, TableRefusal};
use c_tree::NoMemory;
use std::alloc::AllocError;

/// Why a stage gives nothing: it refuses its text, or memory is wanting.
#[derive(Drop)]
pub enum Stop<R> {
    Refused(R),
    NoMemory,
}

/// Why there is no plan.
#[derive(Drop)]
pub enum Halt {
    /// A text is refused.
    Refused(Refusal),
    /// A file was not read: the shelf's count of faults rose.
    ReadFault,
    /// Want of memory.
    NoMemory,
}

impl From<NoMemory> for Halt {
    ghost use Rattle.std.specs.Prelude.{◌≡◌};
    ghost use Rattle.front_end.specs.declared.stop.Halt.TheVariants as halt;

    ghost from_gives = { λ _ h. h ≡ halt.NoMemory };

    fn from(_: NoMemory) -> Halt {
        Halt::NoMemory
    }
}

impl From<AllocError> for Halt {
    ghost use Rattle.std.specs.Prelude.{◌≡◌};
    ghost use Rattle.front_end.specs.declared.stop.Halt.TheVariants as halt;

    ghost from_gives = { λ _ h. h ≡ halt.NoMemory };

    fn from(_: AllocError) -> Halt {
        Halt::NoMemory
    }
}

impl From<Stop<ProgramRefusal>> for Halt {
    ghost use Rattle.std.specs.Prelude.{◌≡◌};
    ghost use Rattle.front_end.specs.Halts.{program_halt};

    ghost from_gives = { λ s h. h ≡ program_halt s };

    fn from(stop: Stop<ProgramRefusal>) -> Halt {
        match stop {
            Stop::Refused(refusal) => Halt::Refused(Refusal::Program(refusal)),
            Stop::NoMemory => Halt::NoMemory,
        }
    }
}

impl From<Stop<TableRefusal>> for Halt {
    ghost use Rattle.std.specs.Prelude.{◌≡◌};
    ghost use Rattle.front_end.specs.Halts.{table_halt};

    ghost from_gives = { λ s h. h ≡ table_halt s };

    fn from(stop: Stop<TableRefusal>) -> Halt {
        match stop {
            Stop::Refused(refusal) => Halt::Refused(Refusal::Table(refusal)),
            Stop::NoMemory => Halt::NoMemory,
        }
    }
}

impl From<Stop<PlanRefusal>> for Halt {
    ghost use Rattle.std.specs.Prelude.{◌≡◌};
    ghost use Rattle.front_end.specs.Halts.{plan_halt};

    ghost from_gives = { λ s h. h ≡ plan_halt s };

    fn from(stop: Stop<PlanRefusal>) -> Halt {
        match stop {
            Stop::Refused(refusal) => Halt::Refused(Refusal::Plan(refusal)),
            Stop::NoMemory => Halt::NoMemory,
        }
    }
}
