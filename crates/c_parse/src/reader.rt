//! A cursor over the tokens of a text.

ghost use Rattle.std.specs.Prelude.{◌≡◌, ◌<◌, true, length, All, IfOk, Ok, Err};
ghost use Rattle.c_tree.specs.Grammar.Heights.{height};
ghost use Rattle.c_tree.specs.Tokens.Symbols.{lexeme, lexemes, spot};
ghost use Rattle.parse_laws.specs.Going as reading;
ghost use Rattle.c_parse.specs.Lexeme.{IsWithin};
ghost use Rattle.parse_laws.specs.Lexeme.{constant_expr, raw_bound};
ghost use Rattle.parse_laws.specs.Parser as spec;
ghost use Rattle.c_parse.specs.Reads.{Reads};

use c_symbols::{bound_of, constant_of, next_of, symbol_of};
use c_tree::{Name, RawBound, RawExpr, Spot, Symbol, Token, Ty};
use parse_laws::{Next, ReadingFault};
use std::alloc::{AllocError, Global};
use std::marker::Model;

/// The tokens that are left to read, with their text. Contracts see what each of them is to the grammar.
#[derive(Drop)]
pub(crate) struct Reader<'a> {
    alloc: Global,
    text: &'a [u8],
    rest: &'a [Token],
}

impl<'a> Model for Reader<'a> {
    ghost use Rattle.std.specs.Prelude.{List, All};
    ghost use Rattle.c_tree.specs.Tokens.Symbols.{Lexeme, lexemes};
    ghost use Rattle.parse_laws.specs.Going as reading;
    ghost use Rattle.c_parse.specs.Lexeme.{IsWithin};

    ghost Value = { List Lexeme };

    ghost view = { λ r. lexemes r.text.now r.rest.now };

    ghost invariant = { λ r. All (IsWithin r.text.now) r.rest.now };
}

impl<'a> Reader<'a> {
    /// A reader over the tokens, each of which lies within the text.
    pub(crate) fn new(alloc: Global, text: &'a [u8], rest: &'a [Token]) -> Self
        requires { All (IsWithin text.now) rest.now }
        ensures { result ≡ lexemes text.entry.now rest.entry.now }
    {
        Reader { alloc, text, rest }
    }

    /// The allocator for what is read.
    pub(crate) fn alloc(&self) -> Global {
        self.alloc
    }

    /// How many tokens are left.
    #[tactic(auto, using(crate::proofs::Tokens::front))]
    pub(crate) fn left(&self) -> usize
        ensures { result ≡ length self.now }
    {
        self.rest.len()
    }

    /// What the next token is.
    #[tactic(auto, using(crate::proofs::Tokens::front), unfolding(c_tree::specs::Tokens::Symbols::lexeme))]
    pub(crate) fn peek(&self) -> Option<Symbol>
        ensures { result ≡ spec.first self.now }
    {
        match self.rest {
            [] => None,
            [first, ..] => {
                let spelling = &self.text[first.from as usize..first.to as usize];
                Some(symbol_of(first.kind, spelling))
            }
        }
    }

    /// What the token after the next one is.
    #[tactic(auto, using(crate::proofs::Tokens::front), unfolding(c_tree::specs::Tokens::Symbols::lexeme))]
    fn peek_second(&self) -> Option<Symbol>
        ensures { result ≡ spec.first (spec.tail self.now) }
    {
        match self.rest {
            [_, second, ..] => {
                let spelling = &self.text[second.from as usize..second.to as usize];
                Some(symbol_of(second.kind, spelling))
            }
            _ => None,
        }
    }

    /// The place of the next token.
    #[tactic(auto, using(crate::proofs::Tokens::front), unfolding(c_tree::specs::Tokens::Symbols::lexeme))]
    pub(crate) fn place(&self) -> u32
        requires { 0 < length self.now }
        ensures { result ≡ (spec.head_lexeme self.now).at }
    {
        self.rest[0].from
    }

    /// The next token as a name.
    #[tactic(auto, using(crate::proofs::Tokens::front), unfolding(c_tree::specs::Tokens::Symbols::lexeme))]
    fn spot(&self) -> Result<Spot, AllocError>
        requires { 0 < length self.now }
        ensures { IfOk result (λ x. x ≡ spot (spec.head_lexeme self.now)) }
    {
        let first = &self.rest[0];
        let name = Name::from_slice(
            self.alloc,
            &self.text[first.from as usize..first.to as usize],
        )?;
        Ok(Spot {
            name,
            at: first.from,
        })
    }

    /// The next token, an integer constant.
    #[tactic(auto, using(crate::proofs::Tokens::front, parse_laws::proofs::Reading::Layers::height_layers))]
    fn constant(&self) -> RawExpr
        requires some { 0 < length self.now }
        requires number { spec.sees Symbol.Number self.now ≡ true }
        ensures value { result ≡ constant_expr (spec.head_lexeme self.now) }
        ensures low { height result ≡ 1 }
    {
        let first = self.rest[0];
        let (ty, value) = constant_of(first.kind);
        RawExpr::Num(first.from, ty, value)
    }

    /// The next token, a loop bound.
    #[tactic(auto, using(crate::proofs::Tokens::front))]
    fn loop_bound(&self) -> RawBound
        requires some { 0 < length self.now }
        requires bound { spec.sees Symbol.Bound self.now ≡ true }
        ensures { result ≡ raw_bound (spec.head_lexeme self.now) }
    {
        let first = self.rest[0];
        RawBound {
            at: first.from,
            value: bound_of(first.kind),
        }
    }

    /// Goes past the next token.
    #[tactic(auto, using(crate::proofs::Tokens::front), unfolding(c_tree::specs::Tokens::Symbols::lexeme))]
    pub(crate) fn take(&mut self)
        requires { 0 < length self.old }
        ensures { self.new ≡ spec.tail self.old }
    {
        self.rest = &self.rest[1..];
    }

    /// Whether the next token is the symbol.
    #[tactic(auto, unfolding(parse_laws::specs::Parser::sees))]
    pub(crate) fn sees(&self, wanted: Symbol) -> bool
        ensures { result ≡ spec.sees wanted self.now }
    {
        match self.peek() {
            None => false,
            Some(found) => found == wanted,
        }
    }

    /// Whether the token after the next one is the symbol.
    #[tactic(auto, unfolding(parse_laws::specs::Parser::sees_second))]
    pub(crate) fn sees_second(&self, wanted: Symbol) -> bool
        ensures { result ≡ spec.sees_second wanted self.now }
    {
        match self.peek_second() {
            None => false,
            Some(found) => found == wanted,
        }
    }

    /// The fault at the next token.
    pub(crate) fn refuse(&self) -> ReadingFault
        ensures { result ≡ ReadingFault.Syntax (length self.now) }
    {
        ReadingFault::Syntax(self.left())
    }

    /// The fault where the next token would make the tree too high.
    pub(crate) fn too_deep(&self) -> ReadingFault
        ensures { result ≡ ReadingFault.Depth (length self.now) }
    {
        ReadingFault::Depth(self.left())
    }

    /// Reads the symbol, and gives its place.
    #[tactic(auto, using(parse_laws::proofs::Reading::Steps::seeing), unfolding(parse_laws::specs::Parser::symbol_phrase))]
    pub(crate) fn expect(&mut self, wanted: Symbol) -> Result<u32, ReadingFault>
        ensures { Reads (λ x. x) (spec.expect wanted self.old) result self.new }
    {
        if !self.sees(wanted) {
            return Err(self.refuse());
        }
        let at = self.place();
        self.take();
        Ok(at)
    }

    /// Reads a name.
    #[tactic(auto, using(parse_laws::proofs::Reading::Steps::seeing), unfolding(parse_laws::specs::Parser::symbol_phrase))]
    pub(crate) fn name(&mut self) -> Result<Spot, ReadingFault>
        ensures { Reads (λ x. x) (spec.name self.old) result self.new }
    {
        if !self.sees(Symbol::Name) {
            return Err(self.refuse());
        }
        let spot = self.spot()?;
        self.take();
        Ok(spot)
    }

    /// Reads an integer constant.
    #[tactic(auto, using(parse_laws::proofs::Reading::Steps::seeing), unfolding(parse_laws::specs::Parser::symbol_phrase))]
    pub(crate) fn number(&mut self) -> Result<RawExpr, ReadingFault>
        ensures low { IfOk result (λ a. height a ≡ 1) }
        ensures reads { Reads (λ x. x) (spec.number_phrase self.old) result self.new }
    {
        if !self.sees(Symbol::Number) {
            return Err(self.refuse());
        }
        let number = self.constant();
        self.take();
        Ok(number)
    }

    /// Reads a loop bound.
    #[tactic(auto, using(parse_laws::proofs::Reading::Steps::seeing), unfolding(parse_laws::specs::Parser::symbol_phrase))]
    pub(crate) fn bound(&mut self) -> Result<RawBound, ReadingFault>
        ensures { Reads (λ x. x) (spec.bound self.old) result self.new }
    {
        if !self.sees(Symbol::Bound) {
            return Err(self.refuse());
        }
        let bound = self.loop_bound();
        self.take();
        Ok(bound)
    }

    /// Reads the symbol if it comes next, and tells whether it did.
    #[tactic(auto, using(parse_laws::proofs::Reading::Steps::seeing), unfolding(parse_laws::specs::Parser::optional_word))]
    pub(crate) fn optional(&mut self, word: Symbol) -> bool
        ensures { spec.optional_word word self.old ≡ Ok (result, self.new) }
    {
        if !self.sees(word) {
            return false;
        }
        self.take();
        true
    }

    /// Whether the name of a type comes next.
    #[tactic(auto, unfolding(parse_laws::specs::Parser::begins_type))]
    pub(crate) fn begins_type(&self) -> bool
        ensures { result ≡ spec.begins_type self.now }
    {
        matches!(
            self.peek(),
            Some(Symbol::Int | Symbol::Signed | Symbol::Unsigned)
        )
    }

    /// Reads a word of a type, after which an `int` may stand.
    #[tactic(auto, unfolding(parse_laws::specs::Parser::with_int))]
    fn with_int(&mut self, word: Symbol, ty: Ty) -> Result<Ty, ReadingFault>
        ensures { Reads (λ x. x) (spec.with_int word ty self.old) result self.new }
    {
        self.expect(word)?;
        self.optional(Symbol::Int);
        Ok(ty)
    }

    /// Reads the name of a type.
    #[tactic(auto, unfolding(parse_laws::specs::Parser::type_name))]
    pub(crate) fn type_name(&mut self) -> Result<Ty, ReadingFault>
        ensures { Reads (λ x. x) (spec.type_name self.old) result self.new }
    {
        match self.peek() {
            Some(Symbol::Int) => {
                self.expect(Symbol::Int)?;
                Ok(Ty::Int)
            }
            Some(Symbol::Signed) => self.with_int(Symbol::Signed, Ty::Int),
            Some(Symbol::Unsigned) => self.with_int(Symbol::Unsigned, Ty::Unsigned),
            _ => Err(self.refuse()),
        }
    }

    /// How an expression goes on with the next token.
    #[tactic(auto, unfolding(parse_laws::specs::Going::next_seen))]
    pub(crate) fn next(&self) -> Next
        ensures { result ≡ reading.next_seen self.now }
    {
        next_of(self.peek())
    }

    /// Whether a further phrase comes, in a list of phrases with commas.
    #[tactic(auto, unfolding(parse_laws::specs::Parser::another))]
    pub(crate) fn another(&self) -> bool
        ensures { result ≡ spec.another self.now }
    {
        self.sees(Symbol::Comma)
    }

    /// Whether a further value comes, in a list that may end with a comma.
    #[tactic(auto, unfolding(parse_laws::specs::Parser::another_value))]
    pub(crate) fn another_value(&self) -> bool
        ensures { result ≡ spec.another_value self.now }
    {
        self.sees(Symbol::Comma) && !self.sees_second(Symbol::RightBrace)
    }
}

impl<'a> Reader<'a> {
    /// The reader past the next two tokens.
    #[tactic(auto, using(parse_laws::proofs::Reading::StmtTurns::next_symbol))]
    pub(crate) fn past_two(&self) -> Reader<'a>
        requires { 1 < length self.now }
        ensures { result ≡ spec.tail (spec.tail self.now) }
    {
        let mut ahead = Reader::new(self.alloc, self.text, self.rest);
        ahead.take();
        ahead.take();
        ahead
    }
}
