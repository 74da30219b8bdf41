//! Why a case has no answer.

use cnf_form::FormFault;
use std::alloc::{AllocError, AllocFailed, Global};
use wc_outside::NoMemory;

/// Why a case has no answer of its own.
#[derive(Clone, Copy, Debug)]
pub(crate) enum Wrong {
    /// Want of memory.
    NoMemory,
    /// The line is none of the cases.
    NoCase,
    /// A text leaves the form at this line.
    NotForm(u32),
}

impl Wrong {
    /// The answer that says so.
    pub(crate) fn told(self, alloc: Global) -> Result<String, AllocError> {
        match self {
            Wrong::NoMemory => format!(in alloc; "no memory"),
            Wrong::NoCase => format!(in alloc; "no case"),
            Wrong::NotForm(line) => format!(in alloc; "leaves the form at line {line}"),
        }
    }
}

impl From<AllocError> for Wrong {
    fn from(_: AllocError) -> Wrong {
        Wrong::NoMemory
    }
}

impl<T: Drop> From<AllocFailed<T>> for Wrong {
    fn from(_: AllocFailed<T>) -> Wrong {
        Wrong::NoMemory
    }
}

impl From<NoMemory> for Wrong {
    fn from(_: NoMemory) -> Wrong {
        Wrong::NoMemory
    }
}

impl From<FormFault> for Wrong {
    fn from(fault: FormFault) -> Wrong {
        match fault {
            FormFault::NotForm { line } => Wrong::NotForm(line),
            FormFault::NoMemory => Wrong::NoMemory,
        }
    }
}
