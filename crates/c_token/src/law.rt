//! Laws of the tokens of a text.

ghost use Rattle.std.specs.Prelude.{◌≡◌, ℕ, List, length};
ghost use Rattle.c_tree.specs.declared.token.Token.{Token};
ghost use Rattle.c_tree.specs.Tokens.Lexing.{Lexes};
ghost use Rattle.c_tree.specs.Tokens.Places.{AreInOrder, AreSeparated};

/// A text has at most one list of tokens.
#[tactic(auto, using(crate::proofs::Answering::lexed_once))]
pub fn one_reading()
    ensures { (text : List ℕ) (ts us : List Token) → Lexes text ts → Lexes text us → ts ≡ us }
{}

/// The tokens of a text are not empty, lie in order and within the text, and do not overlap.
#[tactic(auto, using(crate::proofs::Laws::reached_in_order))]
pub fn in_order()
    ensures { (text : List ℕ) (ts : List Token) → Lexes text ts → AreInOrder 0 ts (length text) }
{}

/// Before, between and behind the tokens of a text only separators stand.
#[tactic(auto, using(crate::proofs::Laws::reached_separated))]
pub fn separated()
    ensures { (text : List ℕ) (ts : List Token) → Lexes text ts → AreSeparated text 0 ts }
{}
