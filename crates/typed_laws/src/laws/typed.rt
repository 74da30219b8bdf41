//! What checking sees to.

ghost use Rattle.std.specs.Prelude.{ℕ, List};
ghost use Rattle.c_tree.specs.declared.token.Token.{Token};
ghost use Rattle.c_tree.specs.declared.unit.Unit.{Unit as Tree};
ghost use Rattle.c_tree.specs.declared.program.Program.{Program};
ghost use Rattle.c_tree.specs.Tokens.Lexing.{Lexes};
ghost use Rattle.c_tree.specs.Checking.Refusals.{Typed};
ghost use Rattle.c_tree.specs.Grammar.Spelling.{Spells};
ghost use Rattle.c_tree.specs.Keeping.WellFormed.{WellFormed};
ghost use Rattle.typed_laws.specs.Shaped.{ShapedUnit};

use crate::laws::spelled::spelled_units_are_shaped;

/// A program that is typed from a shaped unit is well-formed.
pub fn shaped_units_type_well()
    ensures { (unit : Tree) (entry : List ℕ) (program : Program) → ShapedUnit unit → Typed unit entry program
        → WellFormed program }
{}

/// A program that is typed from a unit which the tokens of a text spell is well-formed.
pub fn typed_programs_are_well_formed()
    ensures { (text : List ℕ) (tokens : List Token) (unit : Tree) (entry : List ℕ) (program : Program)
        → Lexes text tokens → Spells text tokens unit → Typed unit entry program → WellFormed program }
{
    spelled_units_are_shaped();
    shaped_units_type_well();
}
