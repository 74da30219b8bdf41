//! What the grammar sees to.

ghost use Rattle.std.specs.Prelude.{ℕ, List};
ghost use Rattle.c_tree.specs.declared.token.Token.{Token};
ghost use Rattle.c_tree.specs.declared.unit.Unit.{Unit as Tree};
ghost use Rattle.c_tree.specs.Tokens.Lexing.{Lexes};
ghost use Rattle.c_tree.specs.Grammar.Spelling.{Spells};
ghost use Rattle.typed_laws.specs.Shaped.{ShapedUnit};

/// A unit that the tokens of a text spell has its constants in range, only the operators of C11 6.5.16 in its compound
/// assignments, no empty list of an array (6.7.9), and assignments and declarations where a `for` has them (6.8.5.3).
pub fn spelled_units_are_shaped()
    ensures { (text : List ℕ) (tokens : List Token) (unit : Tree) → Lexes text tokens → Spells text tokens unit
        → ShapedUnit unit }
{}
