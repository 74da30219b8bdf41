//! Programs of the code.

ghost use Rattle.c_tree.specs.Checking.Checked.{IsProgram};
ghost use Rattle.c_tree.specs.Keeping.WellFormed.{WellFormed};

use crate::laws::typed::typed_programs_are_well_formed;
use c_tree::Program;

/// A program is typed from a unit that the tokens of some text spell, since its type keeps that. It does nothing.
pub fn program_is_typed(program: &Program)
    ensures { IsProgram program.now }
{
    // What a type keeps is at hand where a field is looked at.
    let _ = &program.entry;
}

/// A program is well-formed. It does nothing.
pub fn program_is_well_formed(program: &Program)
    ensures { WellFormed program.now }
{
    program_is_typed(program);
    typed_programs_are_well_formed();
}
