//! How a run of the tool ends.

ghost use Rattle.std.specs.Prelude.{◌≡◌};
ghost use Rattle.front_end.specs.Statuses.{code_of};

/// How a run of the tool ends.
#[derive(Clone, Copy, Debug, PartialEq, Eq)]
pub enum Status {
    /// The mode's job is done.
    Whole,
    /// The bound is one that need not be met. No mode of today answers it.
    Inexact,
    /// The words were refused, or the text of the input is that of none that fits.
    Words,
    /// The program was refused: its size, tokens, tree or names, or the limits of its flat graph.
    Program,
    /// The cost table was refused: it is too long, or has a fault.
    Costs,
    /// The shelf's count of faults rose.
    ReadFault,
    /// The sink's count of faults rose.
    WriteFault,
    /// Want of memory.
    NoMemory,
}

impl Status {
    /// The exit status of the program.
    pub fn code(self) -> u8
        ensures { result ≡ code_of self }
    {
        match self {
            Status::Whole => 0,
            Status::Inexact => 1,
            Status::Words => 2,
            Status::Program => 3,
            Status::Costs => 4,
            Status::ReadFault => 5,
            Status::WriteFault => 6,
            Status::NoMemory => 7,
        }
    }
}
