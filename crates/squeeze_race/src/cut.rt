//! Why a report is cut short.

ghost use Rattle.std.specs.Prelude.{◌≡◌};
ghost use Rattle.squeeze_race.specs.Endings.{status_of_cut};

use front_end::Status;

/// What cuts a report short.
#[derive(Clone, Copy, Drop)]
pub(crate) enum Cut {
    /// The sink's count of faults rose.
    WriteFault,
    /// Want of memory.
    NoMemory,
}

impl Cut {
    /// The status of a report that this cut short.
    pub(crate) fn status(self) -> Status
        ensures { result ≡ status_of_cut self }
    {
        match self {
            Cut::WriteFault => Status::WriteFault,
            Cut::NoMemory => Status::NoMemory,
        }
    }
}
