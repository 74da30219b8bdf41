//! Why a case has no answer.

use c_tree::NoMemory;
use std::alloc::{AllocError, AllocFailed, Global};

/// Why a case has no answer of its own.
#[derive(Clone, Copy, Debug)]
pub enum Wrong {
    /// Want of memory.
    NoMemory,
    /// The line is none of the cases.
    NoCase,
}

impl Wrong {
    /// The answer that says so.
    pub fn told(self, alloc: Global) -> Result<String, AllocError> {
        match self {
            Wrong::NoMemory => format!(in alloc; "no memory"),
            Wrong::NoCase => format!(in alloc; "no case"),
        }
    }
}

impl From<AllocError> for Wrong {
    fn from(_: AllocError) -> Wrong {
        Wrong::NoMemory
    }
}

impl<T: Drop> From<AllocFailed<T>> for Wrong {
    fn from(_: AllocFailed<T>) -> Wrong {
        Wrong::NoMemory
    }
}

impl From<NoMemory> for Wrong {
    fn from(_: NoMemory) -> Wrong {
        Wrong::NoMemory
    }
}
