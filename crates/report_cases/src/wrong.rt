//! Why a case has no answer of its own.

use case_lines::CaseFault;
use report_text::ReportFault;
use std::alloc::{AllocError, Global};
use wc_outside::NoMemory;

/// Why a case has no answer of its own.
#[derive(Clone, Copy, Debug)]
pub(crate) enum Wrong {
    /// Want of memory.
    NoMemory,
    /// The line is none of the cases.
    NoCase,
    /// The text leaves the form at this line.
    Line(u32),
}

impl Wrong {
    /// The answer that says so.
    pub(crate) fn told(self, alloc: Global) -> Result<String, AllocError> {
        match self {
            Wrong::NoMemory => "no memory".to_string(alloc),
            Wrong::NoCase => "no case".to_string(alloc),
            Wrong::Line(line) => format!(in alloc; "line {line}"),
        }
    }
}

impl From<AllocError> for Wrong {
    fn from(_: AllocError) -> Wrong {
        Wrong::NoMemory
    }
}

impl From<NoMemory> for Wrong {
    fn from(_: NoMemory) -> Wrong {
        Wrong::NoMemory
    }
}

impl From<CaseFault> for Wrong {
    fn from(fault: CaseFault) -> Wrong {
        match fault {
            CaseFault::Form => Wrong::NoCase,
            CaseFault::NoMemory => Wrong::NoMemory,
        }
    }
}

impl From<ReportFault> for Wrong {
    fn from(fault: ReportFault) -> Wrong {
        match fault {
            ReportFault::NotReport { line } => Wrong::Line(line),
            ReportFault::NoMemory => Wrong::NoMemory,
        }
    }
}
