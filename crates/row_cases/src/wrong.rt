//! Why a case has no answer.

use std::alloc::{AllocError, AllocFailed, Global};

/// Why a case has no answer of its own.
#[derive(Clone, Copy, Debug)]
pub(crate) enum Wrong {
    /// Want of memory.
    NoMemory,
    /// The line is none of the cases.
    NoCase,
    /// Rows, a box or multipliers were refused.
    Refused,
    /// The lists have other lengths than the rows have edges.
    Lengths,
}

impl Wrong {
    /// The answer that says so.
    pub(crate) fn told(self, alloc: Global) -> Result<String, AllocError> {
        let text = match self {
            Wrong::NoMemory => "no memory",
            Wrong::NoCase => "no case",
            Wrong::Refused => "refused",
            Wrong::Lengths => "other lengths",
        };
        text.to_string(alloc)
    }
}

impl From<AllocError> for Wrong {
    fn from(_: AllocError) -> Wrong {
        Wrong::NoMemory
    }
}

impl<T: Drop> From<AllocFailed<T>> for Wrong {
    fn from(_: AllocFailed<T>) -> Wrong {
        Wrong::NoMemory
    }
}

impl From<case_maker::NoMemory> for Wrong {
    fn from(_: case_maker::NoMemory) -> Wrong {
        Wrong::NoMemory
    }
}

impl From<c_tree::NoMemory> for Wrong {
    fn from(_: c_tree::NoMemory) -> Wrong {
        Wrong::NoMemory
    }
}
