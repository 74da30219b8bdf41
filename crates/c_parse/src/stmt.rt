//! Statements (C11 6.8). `room` is the greatest height that may be read, and so bounds the recursion. It is at most 128
//! in `parse`; that it is asked to be less than 1,000 keeps the heights that are computed far from an overflow.

ghost use Rattle.std.specs.Prelude.{◌≡◌, ◌<◌, [], Some, Ok};
ghost use Rattle.parse_laws.specs.ReadStmt as spec;
ghost use Rattle.c_parse.specs.Reads.{Reads};
ghost use Rattle.c_tree.specs.Grammar.SpelledStatements.{Plain, Body, Item};

use crate::reader::Reader;
use crate::simple::{one, only};
use c_tree::{RawBound, RawExpr, RawShape, RawStmt, Symbol};
use parse_laws::{ForHead, ReadingFault};
use sqlite_items::{Boxed, Items};
use std::alloc::Global;

/// A part of a `for` that is there.
fn held(alloc: Global, stmt: RawStmt) -> Result<Option<Boxed<RawStmt>>, ReadingFault>
    ensures { Reads (λ x. x) (Ok (Some stmt, [])) result [] }
{
    Ok(Some(Boxed::new(alloc, stmt)?))
}

impl<'a> Reader<'a> {
    /// `( expression )`.
    #[tactic(auto, unfolding(parse_laws::specs::ReadStmt::condition))]
    fn condition(&mut self, room: usize) -> Result<Boxed<RawExpr>, ReadingFault>
        requires { room < 999 }
        ensures { Reads (λ x. x) (spec.condition room self.old) result self.new }
    {
        self.expect(Symbol::LeftParen)?;
        let a = self.expr_before(room, Symbol::RightParen)?;
        Ok(a.expr)
    }

    /// The declaration that begins a `for`.
    #[tactic(auto, unfolding(parse_laws::specs::ReadStmt::for_declaration))]
    fn for_declaration(&mut self, room: usize) -> Result<RawStmt, ReadingFault>
        requires { room < 999 }
        ensures { Reads (λ x. x) (spec.for_declaration room self.old) result self.new }
    {
        let ty = self.type_name()?;
        let spot = self.name()?;
        self.expect(Symbol::Assign)?;
        let a = self.expr(room, 0)?;
        Ok(RawStmt::Declare(false, ty, spot, RawShape::Scalar(Some(a.expr.into_inner()))))
    }

    #[tactic(auto, unfolding(parse_laws::specs::ReadStmt::for_setup))]
    fn setup(&mut self, room: usize) -> Result<RawStmt, ReadingFault>
        requires { room < 999 }
        ensures { Reads (λ x. x) (spec.for_setup room self.old) result self.new }
    {
        if self.begins_type() {
            self.for_declaration(room)
        } else {
            self.assignment(room)
        }
    }

    /// What a `for` begins with, if there is something.
    #[tactic(auto, using(parse_laws::proofs::Reading::StmtTurns::part_turns))]
    fn initialiser(&mut self, room: usize) -> Result<Option<Boxed<RawStmt>>, ReadingFault>
        requires { room < 999 }
        ensures { Reads (λ x. x) (spec.initialiser room self.old) result self.new }
    {
        if self.sees(Symbol::Semicolon) {
            return Ok(None);
        }
        if room == 0 {
            return Err(self.too_deep());
        }
        let stmt = self.setup(room - 1)?;
        held(self.alloc(), stmt)
    }

    /// The condition of a `for`. A missing one is the number 1 at the place of the semicolon.
    #[tactic(auto, using(parse_laws::proofs::Reading::StmtTurns::part_turns, parse_laws::proofs::Reading::Steps::seeing))]
    fn test(&mut self, room: usize) -> Result<Boxed<RawExpr>, ReadingFault>
        requires { room < 999 }
        ensures { Reads (λ x. x) (spec.test room self.old) result self.new }
    {
        if room == 0 {
            return Err(self.too_deep());
        }
        if self.sees(Symbol::Semicolon) {
            return Ok(Boxed::new(self.alloc(), one(self.place()))?);
        }
        let a = self.expr(room, 0)?;
        Ok(a.expr)
    }

    /// The step of a `for`, if there is one.
    #[tactic(auto, using(parse_laws::proofs::Reading::StmtTurns::part_turns))]
    fn step(&mut self, room: usize) -> Result<Option<Boxed<RawStmt>>, ReadingFault>
        requires { room < 999 }
        ensures { Reads (λ x. x) (spec.for_step room self.old) result self.new }
    {
        if self.sees(Symbol::RightParen) {
            return Ok(None);
        }
        if room == 0 {
            return Err(self.too_deep());
        }
        let stmt = self.assignment(room - 1)?;
        held(self.alloc(), stmt)
    }

    /// What stands after the body of a `do`.
    #[tactic(auto, unfolding(parse_laws::specs::ReadStmt::do_end))]
    fn do_end(&mut self, room: usize) -> Result<Boxed<RawExpr>, ReadingFault>
        requires { room < 999 }
        ensures { Reads (λ x. x) (spec.do_end room self.old) result self.new }
    {
        self.expect(Symbol::While)?;
        let a = self.condition(room)?;
        self.expect(Symbol::Semicolon)?;
        Ok(a)
    }

    /// The head of a `for`.
    #[tactic(auto, unfolding(parse_laws::specs::ReadStmt::for_head))]
    fn for_head(&mut self, room: usize) -> Result<ForHead, ReadingFault>
        requires { room < 999 }
        ensures { Reads (λ x. x) (spec.for_head room self.old) result self.new }
    {
        self.expect(Symbol::LeftParen)?;
        let first = self.initialiser(room)?;
        self.expect(Symbol::Semicolon)?;
        let test = self.test(room)?;
        self.expect(Symbol::Semicolon)?;
        let last = self.step(room)?;
        self.expect(Symbol::RightParen)?;
        Ok(ForHead { first, test, last })
    }

    /// The bound of a loop, if there is one.
    #[tactic(auto, unfolding(parse_laws::specs::ReadStmt::possible_bound))]
    fn optional_bound(&mut self) -> Result<Option<RawBound>, ReadingFault>
        ensures { Reads (λ x. x) (spec.possible_bound self.old) result self.new }
    {
        if !self.sees(Symbol::Bound) {
            return Ok(None);
        }
        let bound = self.bound()?;
        Ok(Some(bound))
    }

    /// The end of a compound statement.
    #[tactic(auto, unfolding(parse_laws::specs::ReadStmt::compound_end))]
    fn closed(&mut self, list: Items<RawStmt>) -> Result<Items<RawStmt>, ReadingFault>
        ensures { Reads (λ x. x) (spec.compound_end list self.old) result self.new }
    {
        self.expect(Symbol::RightBrace)?;
        Ok(list)
    }

    /// A statement that is neither a declaration nor a compound statement.
    #[cycle(code)]
    #[tactic(auto, using(parse_laws::proofs::Reading::StmtTurns::stmt_turns, parse_laws::proofs::Reading::StmtTurns::next_symbol), unfolding(parse_laws::specs::ReadStmt::plain_phrase))]
    fn plain(&mut self, room: usize) -> Result<Items<RawStmt>, ReadingFault>
        requires { room < 1000 }
        ensures { Reads (λ x. x) (spec.statement room Plain self.old) result self.new }
    {
        if room == 0 {
            return Err(self.too_deep());
        }
        match self.peek() {
            Some(Symbol::Semicolon) => self.empty(),
            Some(Symbol::Name) => self.named(room - 1),
            Some(Symbol::Step(_)) => self.assign(room - 1),
            Some(Symbol::Break) => self.broken(),
            Some(Symbol::Continue) => self.continued(),
            Some(Symbol::Return) => self.returned(room - 1),
            Some(Symbol::If) => self.choice(room - 1),
            Some(Symbol::Bound) => self.looped(room - 1),
            Some(Symbol::While) => self.looped(room - 1),
            Some(Symbol::Do) => self.looped(room - 1),
            Some(Symbol::For) => self.looped(room - 1),
            _ => Err(self.refuse()),
        }
    }

    #[cycle(code)]
    #[tactic(auto, unfolding(parse_laws::specs::ReadStmt::if_statement))]
    fn choice(&mut self, room: usize) -> Result<Items<RawStmt>, ReadingFault>
        requires { room < 999 }
        ensures { Reads (λ x. x) (spec.if_statement room (spec.statement room Body) self.old) result self.new }
    {
        self.expect(Symbol::If)?;
        let a = self.condition(room)?;
        let xs = self.body(room)?;
        let ys = self.other(room)?;
        only(self.alloc(), RawStmt::If(a.into_inner(), xs, ys))
    }

    /// The side of an `if` after its `else`, if there is one.
    #[cycle(code)]
    #[tactic(auto, unfolding(parse_laws::specs::ReadStmt::other))]
    fn other(&mut self, room: usize) -> Result<Items<RawStmt>, ReadingFault>
        requires { room < 999 }
        ensures { Reads (λ x. x) (spec.other room (spec.statement room Body) self.old) result self.new }
    {
        if !self.sees(Symbol::Else) {
            return Ok(Items::new(self.alloc()));
        }
        self.expect(Symbol::Else)?;
        self.body(room)
    }

    /// A loop, with its bound before it.
    #[cycle(code)]
    #[tactic(auto, unfolding(parse_laws::specs::ReadStmt::loop_phrase))]
    fn looped(&mut self, room: usize) -> Result<Items<RawStmt>, ReadingFault>
        requires { room < 999 }
        ensures { Reads (λ x. x) (spec.loop_phrase room (spec.statement room Body) self.old) result self.new }
    {
        let bound = self.optional_bound()?;
        match self.peek() {
            Some(Symbol::While) => self.while_loop(room, bound),
            Some(Symbol::Do) => self.do_loop(room, bound),
            Some(Symbol::For) => self.for_loop(room, bound),
            _ => Err(self.refuse()),
        }
    }

    #[cycle(code)]
    #[tactic(auto, unfolding(parse_laws::specs::ReadStmt::while_loop))]
    fn while_loop(
        &mut self,
        room: usize,
        bound: Option<RawBound>,
    ) -> Result<Items<RawStmt>, ReadingFault>
        requires { room < 999 }
        ensures { Reads (λ x. x) (spec.while_loop room (spec.statement room Body) bound self.old) result self.new }
    {
        let at = self.expect(Symbol::While)?;
        let a = self.condition(room)?;
        let xs = self.body(room)?;
        only(self.alloc(), RawStmt::While(at, bound, a.into_inner(), xs))
    }

    #[cycle(code)]
    #[tactic(auto, unfolding(parse_laws::specs::ReadStmt::do_phrase))]
    fn do_loop(
        &mut self,
        room: usize,
        bound: Option<RawBound>,
    ) -> Result<Items<RawStmt>, ReadingFault>
        requires { room < 999 }
        ensures { Reads (λ x. x) (spec.do_phrase room (spec.statement room Body) bound self.old) result self.new }
    {
        let at = self.expect(Symbol::Do)?;
        let xs = self.body(room)?;
        let a = self.do_end(room)?;
        only(self.alloc(), RawStmt::Do(at, bound, xs, a.into_inner()))
    }

    #[cycle(code)]
    #[tactic(auto, unfolding(parse_laws::specs::ReadStmt::for_loop))]
    fn for_loop(
        &mut self,
        room: usize,
        bound: Option<RawBound>,
    ) -> Result<Items<RawStmt>, ReadingFault>
        requires { room < 999 }
        ensures { Reads (λ x. x) (spec.for_loop room (spec.statement room Body) bound self.old) result self.new }
    {
        let at = self.expect(Symbol::For)?;
        let head = self.for_head(room)?;
        let xs = self.body(room)?;
        only(
            self.alloc(),
            RawStmt::For(at, bound, head.first, head.test.into_inner(), head.last, xs),
        )
    }

    /// A side of an `if`, or the body of a loop.
    #[cycle(code)]
    #[tactic(auto, using(parse_laws::proofs::Reading::StmtTurns::stmt_turns), unfolding(parse_laws::specs::ReadStmt::as_body))]
    fn body(&mut self, room: usize) -> Result<Items<RawStmt>, ReadingFault>
        requires { room < 1000 }
        ensures { Reads (λ x. x) (spec.statement room Body self.old) result self.new }
    {
        if self.sees(Symbol::LeftBrace) {
            self.block(room)
        } else {
            self.plain(room)
        }
    }

    /// The list of a compound statement. Each statement takes a token, so there are enough turns.
    #[cycle(code)]
    #[tactic(auto, using(parse_laws::proofs::Reading::Until::until_turns, parse_laws::proofs::Reading::StmtTurns::stmt_turns))]
    pub(crate) fn block(&mut self, room: usize) -> Result<Items<RawStmt>, ReadingFault>
        requires { room < 1000 }
        ensures { Reads (λ x. x) (spec.compound_phrase (spec.statement room Item) self.old) result self.new }
    {
        self.expect(Symbol::LeftBrace)?;
        let mut list = Items::new(self.alloc());
        for _turn in 0..self.left() {
            if self.sees(Symbol::RightBrace) {
                return self.closed(list);
            }
            let one = self.item(room)?;
            list.append(one)?;
        }
        self.closed(list)
    }

    /// A statement of a list.
    #[cycle(code)]
    #[tactic(auto, using(parse_laws::proofs::Reading::StmtTurns::stmt_turns), unfolding(parse_laws::specs::ReadStmt::as_item))]
    fn item(&mut self, room: usize) -> Result<Items<RawStmt>, ReadingFault>
        requires { room < 1000 }
        ensures { Reads (λ x. x) (spec.statement room Item self.old) result self.new }
    {
        if room == 0 {
            return Err(self.too_deep());
        }
        if self.sees(Symbol::LeftBrace) {
            let xs = self.block(room - 1)?;
            only(self.alloc(), RawStmt::Group(xs))
        } else if self.begins_declaration() {
            self.declaration(room - 1)
        } else {
            self.plain(room)
        }
    }
}
