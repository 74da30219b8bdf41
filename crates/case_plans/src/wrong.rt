//! Why a case has no answer.

use c_tree::NoMemory;
use std::alloc::{AllocError, AllocFailed, Global};

/// Why a case has no answer of its own.
#[derive(Clone, Copy, Debug)]
pub enum Wrong {
    /// Want of memory.
    NoMemory,
    /// The line is none of the cases.
    NoCase,
    /// The text has no plan with these costs.
    NoPlan,
    /// The list names no edges of the plan, or is not one that the call may be given.
    NoList,
    /// The input does not fit the program.
    NoInput,
    /// The claim was to be refused, and was not.
    NoRefusal,
}

impl Wrong {
    /// The answer that says so. It fails for want of memory alone.
    pub fn told(self, alloc: Global) -> Result<String, AllocError> {
        let text = match self {
            Wrong::NoMemory => "no memory",
            Wrong::NoCase => "no case",
            Wrong::NoPlan => "no plan",
            Wrong::NoList => "no list",
            Wrong::NoInput => "no input",
            Wrong::NoRefusal => "no refusal",
        };
        String::from_str(alloc, text)
    }
}

impl From<AllocError> for Wrong {
    fn from(_: AllocError) -> Wrong {
        Wrong::NoMemory
    }
}

impl<T: Drop> From<AllocFailed<T>> for Wrong {
    fn from(_: AllocFailed<T>) -> Wrong {
        Wrong::NoMemory
    }
}

impl From<NoMemory> for Wrong {
    fn from(_: NoMemory) -> Wrong {
        Wrong::NoMemory
    }
}
