//! Why texts are refused, by the stage of the work.

ghost use Rattle.std.specs.Prelude.{◌≡◌};
ghost use Rattle.front_end.specs.Statuses.{status_of};

use crate::Status;
use c_faults::CheckRefusal;
use c_tree::Name;

/// Why the text of a program is refused, in the order in which it is looked at. Places are offsets in the text.
#[derive(Drop)]
pub enum ProgramRefusal {
    /// It has more than 1,048,576 bytes.
    Size,
    /// At this place no token begins, nor anything that separates tokens.
    Byte { at: u32 },
    /// The comment that begins there has no end.
    Comment { at: u32 },
    /// The number there is no constant.
    Number { at: u32 },
    /// The line of the `#` there is none of those that may stand.
    Directive { at: u32 },
    /// Its tokens spell no unit that is no higher than 128.
    Syntax { at: u32 },
    /// The unit would be too high. It is not told yet.
    Depth { at: u32 },
    /// Its unit has this fault, the first by the order of faults and its smallest place.
    Check(CheckRefusal),
}

/// Why a table of costs is refused, in the order in which it is looked at.
#[derive(Drop)]
pub enum TableRefusal {
    /// It has more than 1,048,576 bytes.
    Size,
    /// It is no TOML.
    NotToml,
    /// Its version is not 1.
    Version,
    /// This key at the top is unknown, or is `cost` and no table.
    Key(Name),
    /// This key names no block.
    Block(Name),
    /// The value of this key is no cost.
    Number(Name),
    /// This block has no cost.
    Missing(Name),
}

/// Why a program with its costs has no plan.
#[derive(Drop)]
pub enum PlanRefusal {
    /// With calls inlined there are more than 1,024 block copies.
    Blocks,
    /// The flat graph has more than 2,048 edges.
    Edges,
    /// This is the block of the first block copy whose cap is above 2^40.
    Cap(Name),
}

/// Why texts are refused, by the stage, in the order of the stages. Want of memory is no refusal.
#[derive(Drop)]
pub enum Refusal {
    Program(ProgramRefusal),
    /// The text of the input is that of no input that fits the program, which is to be run.
    Input,
    Table(TableRefusal),
    Plan(PlanRefusal),
}

impl Refusal {
    /// How the tool ends.
    pub fn status(&self) -> Status
        ensures { result ≡ status_of self.now }
    {
        match self {
            Refusal::Program(_) => Status::Program,
            Refusal::Input => Status::Words,
            Refusal::Table(_) => Status::Costs,
            Refusal::Plan(_) => Status::Program,
        }
    }
}
