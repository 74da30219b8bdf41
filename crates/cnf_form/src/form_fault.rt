//! Why no formula and no log were read.

use std::alloc::AllocError;

/// Why no formula, or no log, was read.
#[derive(Clone, Copy, Debug, PartialEq, Eq)]
pub enum FormFault {
    /// The text is not of the form: the first line, counted from 0, such that the lines up to and with it begin no text
    /// of the form, or the number of lines where there is no such line.
    NotForm { line: u32 },
    /// Want of memory.
    NoMemory,
}

impl From<AllocError> for FormFault {
    ghost use Rattle.std.specs.Prelude.{◌≡◌};
    ghost use Rattle.cnf_form.specs.declared.form_fault.FormFault.TheVariants.{NoMemory};

    ghost from_gives = { λ _ e. e ≡ NoMemory };

    fn from(_: AllocError) -> FormFault {
        FormFault::NoMemory
    }
}
