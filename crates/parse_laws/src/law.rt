//! Reading from the left and the rules of the grammar agree.

ghost use Rattle.std.specs.Prelude.{◌≡◌, ◌≤◌, ℕ, List, [], Ok};
ghost use Rattle.c_tree.specs.declared.token.Token.{Token};
ghost use Rattle.c_tree.specs.declared.unit.RawTop.{RawTop};
ghost use Rattle.c_tree.specs.declared.unit.Unit.{Unit as Tree};
ghost use Rattle.c_tree.specs.Grammar.Heights.{unit_height};
ghost use Rattle.c_tree.specs.Grammar.Spelling.{Spells};
ghost use Rattle.c_tree.specs.Tokens.Symbols.{Lexeme, lexemes};
ghost use Rattle.parse_laws.specs.ReadUnit.{whole_unit};
ghost use Rattle.parse_laws.specs.Trees.{tree_of};

/// What is read of the tokens of a text up to the height `room` is spelled by them, and no higher.
pub fn what_is_read_is_spelled()
    ensures spelled { (text : List ℕ) (tokens : List Token) (room : ℕ) (tops : List RawTop) (rest : List Lexeme)
        → whole_unit room (lexemes text tokens) ≡ Ok (tops, rest) → Spells text tokens (tree_of text tops) }
    ensures low { (text : List ℕ) (tokens : List Token) (room : ℕ) (tops : List RawTop) (rest : List Lexeme)
        → whole_unit room (lexemes text tokens) ≡ Ok (tops, rest) → unit_height (tree_of text tops) ≤ room }
{}

/// What the tokens of a text spell is read, up to a height that is no less than its own.
pub fn what_is_spelled_is_read()
    ensures { (text : List ℕ) (tokens : List Token) (room : ℕ) (unit : Tree)
        → Spells text tokens unit → unit_height unit ≤ room → whole_unit room (lexemes text tokens)
        ≡ Ok (unit.tops, []) }
{}

/// The tokens of a text spell at most one tree, whatever its height.
pub fn one_tree()
    ensures { (text : List ℕ) (tokens : List Token) (a b : Tree)
        → Spells text tokens a → Spells text tokens b → a ≡ b }
{}
