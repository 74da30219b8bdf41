//! The scanner over a text.

ghost use Rattle.std.specs.Prelude.{
  ◌≡◌,
  ◌<◌,
  ◌≤◌,
  ◌^◌,
  ◌↔◌,
  ◌++◌,
  ℕ,
  List,
  length,
  nat_le,
  IsOkAnd,
  IfOk,
  OnOk,
  IfErr,
  MatchResult,
};
ghost use Rattle.std.specs.Option.{option_to_list};
ghost use Rattle.c_tree.specs.Tokens.Lexing.{Reaches, Lexes};
ghost use Rattle.c_tree.specs.Tokens.Places.{AreInOrder, AreSeparated};
ghost use Rattle.c_token.specs.Pieces as pieces;
ghost use Rattle.c_token.specs.Faults.{HasStrayByte, HasOpenComment, HasBadNumber, HasBadDirective};
ghost use Rattle.c_token.specs.Answers.{UnlessNoMemory, IsFault};

use crate::fault::TokenFault;
use crate::piece::{Flaw, Piece, read_piece};
use c_tree::Token;
use std::alloc::Global;

/// A text, and how far it has been read.
#[derive(Drop)]
struct Scanner<'a> {
    text: &'a [u8],
    at: usize,
}

impl Scanner<'_> {
    fn is_at_end(&self) -> bool
        ensures { result ≡ nat_le (length self.now.text.now) self.now.at }
    {
        self.text.len() <= self.at
    }

    /// Reads what stands next: a token, or what separates tokens.
    #[tactic(auto, using(crate::proofs::Sizes::piece_fits))]
    fn read(&mut self) -> Result<Option<Token>, TokenFault>
        requires short { length self.old.text.now < 2 ^ 32 }
        requires more { self.old.at < length self.old.text.now }
        ensures text { self.new.text.now ≡ self.old.text.now }
        ensures on { OnOk result (self.old.at < self.new.at) }
        ensures within { OnOk result (self.new.at ≤ length self.old.text.now) }
        ensures reaches { IfOk result (λ token. Reaches self.old.text.now self.new.at self.old.at
            (option_to_list token)) }
        ensures stops { IfErr result (pieces.StopsHere self.old.text.now self.old.at) }
    {
        let at = self.at;
        let piece = match read_piece(&self.text[..at], &self.text[at..]) {
            Ok(piece) => piece,
            Err(flaw) => return Err(flaw_at(flaw, at as u32)),
        };
        self.at = at + piece.len();
        Ok(token_of(piece, at as u32, self.at as u32))
    }
}

fn token_of(piece: Piece, from: u32, to: u32) -> Option<Token>
    ensures { result ≡ pieces.token_of piece from to }
{
    match piece {
        Piece::Gap(_) => None,
        Piece::Lexeme(kind, _) => Some(Token { kind, from, to }),
    }
}

fn flaw_at(flaw: Flaw, at: u32) -> TokenFault
    ensures { result ≡ pieces.token_fault flaw at }
{
    match flaw {
        Flaw::Byte => TokenFault::Byte { at },
        Flaw::Comment => TokenFault::Comment { at },
        Flaw::Number => TokenFault::Number { at },
        Flaw::Directive => TokenFault::Directive { at },
    }
}

fn push(tokens: &mut Vec<Token>, token: Option<Token>) -> Result<(), TokenFault>
    ensures ok { OnOk result (tokens.new.items ≡ tokens.old.items ++ option_to_list token) }
    ensures err { IfErr result (λ fault. fault ≡ TokenFault.NoMemory) }
{
    if let Some(token) = token {
        tokens.push(token)?;
    }
    Ok(())
}

/// The tokens of a text, or what it has in place of them.
fn scan(alloc: Global, text: &[u8]) -> Result<Vec<Token>, TokenFault>
    requires { length text.now < 2 ^ 32 }
    ensures { MatchResult result (λ v. Lexes text.now v.items) (IsFault text.now) }
{
    let mut scanner = Scanner { text, at: 0 };
    let mut tokens = Vec::new(alloc);
    while !scanner.is_at_end() {
        let token = scanner.read()?;
        push(&mut tokens, token)?;
    }
    Ok(tokens)
}

/// The tokens of a text, in order: names, keywords, numbers, marks and loop bounds (C11 6.4). Each is the longest
/// sequence of bytes that could constitute a token at its place. Blanks, comments and skipped lines of `#` separate
/// them. A text that is no tokens is refused at the first place that cannot be read. The text has fewer than 2^32
/// bytes. `NoMemory` may come in place of either answer.
#[tactic(auto, using(crate::proofs::Laws::reached_in_order, crate::proofs::Laws::reached_separated))]
pub fn tokens(alloc: Global, text: &[u8]) -> Result<Vec<Token>, TokenFault>
    requires { length text.now < 2 ^ 32 }

    // What is given are the tokens of the text.
    ensures lexed { IfOk result (λ v. Lexes text.now v.items) }
    // A text that is tokens gives them, unless memory runs out.
    ensures complete { (ts : List Token) → Lexes text.now ts
        → UnlessNoMemory result (IsOkAnd result (λ v. v.items ≡ ts)) }

    // The tokens lie in order in the text, and only separators lie between them.
    ensures in_order { IfOk result (λ v. AreInOrder 0 v.items (length text.now)) }
    ensures separated { IfOk result (λ v. AreSeparated text.now 0 v.items) }

    // Each fault comes exactly at the first place that cannot be read, where what it says is true.
    ensures byte { (at : ℕ) → UnlessNoMemory result ((result ≡ Err (TokenFault.Byte at)) ↔ HasStrayByte text.now at) }
    ensures comment { (at : ℕ) → UnlessNoMemory result ((result ≡ Err (TokenFault.Comment at))
        ↔ HasOpenComment text.now at) }
    ensures number { (at : ℕ) → UnlessNoMemory result ((result ≡ Err (TokenFault.Number at))
        ↔ HasBadNumber text.now at) }
    ensures directive { (at : ℕ) → UnlessNoMemory result ((result ≡ Err (TokenFault.Directive at))
        ↔ HasBadDirective text.now at) }
{
    scan(alloc, text)
}
