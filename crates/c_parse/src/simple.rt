//! Calls, assignments and jumps (C11 6.5.2.2, 6.5.16, 6.8.6). `room` is the greatest height of an expression. It is at
//! most 128 in `parse`; that it is asked to be less than 1,000 keeps the heights that are computed far from an
//! overflow.

ghost use Rattle.std.specs.Prelude.{◌≡◌, ◌<◌, [], ◌∷◌, length, Ok};
ghost use Rattle.parse_laws.specs.Parser.{another, phrases};
ghost use Rattle.parse_laws.specs.ReadExpr.{expr_phrase};
ghost use Rattle.parse_laws.specs.ReadSimple as spec;
ghost use Rattle.c_parse.specs.Reads.{Reads};

use crate::expr::unboxed;
use crate::reader::Reader;
use c_tree::{BinOp, RawExpr, RawPlace, RawStmt, RawTarget, Symbol, Ty};
use parse_laws::ReadingFault;
use sqlite_items::{Boxed, Items};
use std::alloc::Global;

/// The list of this one statement.
pub(crate) fn only(alloc: Global, stmt: RawStmt) -> Result<Items<RawStmt>, ReadingFault>
    ensures { Reads (λ x. x) (Ok (stmt ∷ [], [])) result [] }
{
    let mut list = Items::new(alloc);
    list.push(stmt)?;
    Ok(list)
}

/// The 1 of `++` and `--`, and of a missing condition.
pub(crate) fn one(at: u32) -> RawExpr
    ensures { result ≡ spec.one_at at }
{
    RawExpr::Num(at, Ty::Int, 1)
}

impl<'a> Reader<'a> {
    /// Whether a call comes next.
    #[tactic(auto, unfolding(parse_laws::specs::ReadSimple::begins_call))]
    pub(crate) fn begins_call(&self) -> bool
        ensures { result ≡ spec.begins_call self.now }
    {
        self.sees(Symbol::Name) && self.sees_second(Symbol::LeftParen)
    }

    /// Whether a name comes next to which the result of a call is assigned.
    #[tactic(auto, using(parse_laws::proofs::Reading::StmtTurns::next_symbol), unfolding(parse_laws::specs::ReadSimple::begins_call_into))]
    pub(crate) fn begins_call_into(&self) -> bool
        ensures { result ≡ spec.begins_call_into self.now }
    {
        self.sees(Symbol::Name) && self.sees_second(Symbol::Assign) && self.past_two().begins_call()
    }

    /// Expressions with commas between them. Each takes a token, so there are enough turns.
    #[tactic(auto, using(parse_laws::proofs::Reading::Lists::list_turns))]
    fn expressions(&mut self, room: usize) -> Result<Items<RawExpr>, ReadingFault>
        requires { room < 999 }
        ensures { Reads (λ x. x) (phrases another (expr_phrase room 0) self.old) result self.new }
    {
        let mut list = Items::new(self.alloc());
        for _turn in 0..self.left() {
            let a = self.expr(room, 0)?;
            list.push(a.expr.into_inner())?;
            if !self.another() {
                return Ok(list);
            }
            self.take();
        }
        Err(self.refuse())
    }

    /// The arguments of a call.
    #[tactic(auto, unfolding(parse_laws::specs::ReadSimple::argument_list))]
    fn arguments(&mut self, room: usize) -> Result<Items<RawExpr>, ReadingFault>
        requires { room < 999 }
        ensures { Reads (λ x. x) (spec.argument_list room self.old) result self.new }
    {
        if self.sees(Symbol::RightParen) {
            return Ok(Items::new(self.alloc()));
        }
        self.expressions(room)
    }

    /// A call whose result goes to `to`, with its semicolon.
    #[tactic(auto, unfolding(parse_laws::specs::ReadSimple::call_phrase))]
    pub(crate) fn called(
        &mut self,
        room: usize,
        to: RawTarget,
    ) -> Result<Items<RawStmt>, ReadingFault>
        requires { room < 999 }
        ensures { Reads (λ x. x) (spec.call_phrase room to self.old) result self.new }
    {
        let function = self.name()?;
        self.expect(Symbol::LeftParen)?;
        let list = self.arguments(room)?;
        self.expect(Symbol::RightParen)?;
        self.expect(Symbol::Semicolon)?;
        only(self.alloc(), RawStmt::Call(to, function, list))
    }

    /// A call whose result is assigned.
    #[tactic(auto, unfolding(parse_laws::specs::ReadSimple::call_into))]
    fn assigned_call(&mut self, room: usize) -> Result<Items<RawStmt>, ReadingFault>
        requires { room < 999 }
        ensures { Reads (λ x. x) (spec.call_into room RawTarget.Assign self.old) result self.new }
    {
        let spot = self.name()?;
        self.expect(Symbol::Assign)?;
        self.called(room, RawTarget::Assign(spot))
    }

    /// What is assigned to.
    #[tactic(auto, using(parse_laws::proofs::Reading::StmtTurns::part_turns))]
    fn assigned(&mut self, room: usize) -> Result<RawPlace, ReadingFault>
        requires { room < 999 }
        ensures { Reads (λ x. x) (spec.assigned_place room self.old) result self.new }
    {
        if room == 0 {
            return Err(self.too_deep());
        }
        let spot = self.name()?;
        if !self.sees(Symbol::LeftBracket) {
            return Ok(RawPlace::Scalar(spot));
        }
        let a = self.index(room - 1)?;
        Ok(RawPlace::Elem(spot, a.expr.into_inner()))
    }

    /// The rest of an assignment to a place.
    #[tactic(auto, using(parse_laws::proofs::Reading::StmtTurns::next_symbol), unfolding(parse_laws::specs::ReadSimple::assignment_to))]
    fn assignment_to(&mut self, room: usize, place: RawPlace) -> Result<RawStmt, ReadingFault>
        requires { room < 999 }
        ensures { Reads (λ x. x) (spec.assignment_to room place self.old) result self.new }
    {
        match self.peek() {
            Some(Symbol::Assign) => {
                self.take();
                let a = self.expr(room, 0)?;
                Ok(RawStmt::Assign(place, None, a.expr.into_inner()))
            }
            Some(Symbol::Compound(op)) => {
                self.take();
                let a = self.expr(room, 0)?;
                Ok(RawStmt::Assign(place, Some(op), a.expr.into_inner()))
            }
            Some(Symbol::Step(op)) => {
                let at = self.place();
                self.take();
                Ok(RawStmt::Assign(place, Some(op), one(at)))
            }
            _ => Err(self.refuse()),
        }
    }

    /// `++` or `--`, and a place.
    #[tactic(auto, unfolding(parse_laws::specs::ReadSimple::step_before_place))]
    fn stepped(&mut self, room: usize, op: BinOp) -> Result<RawStmt, ReadingFault>
        requires some { 0 < length self.old }
        requires few { room < 999 }
        ensures { Reads (λ x. x) (spec.step_before_place room op self.old) result self.new }
    {
        let at = self.place();
        self.take();
        let place = self.assigned(room)?;
        Ok(RawStmt::Assign(place, Some(op), one(at)))
    }

    /// An assignment, without its semicolon.
    #[tactic(auto, using(parse_laws::proofs::Reading::StmtTurns::next_symbol), unfolding(parse_laws::specs::ReadSimple::assignment))]
    pub(crate) fn assignment(&mut self, room: usize) -> Result<RawStmt, ReadingFault>
        requires { room < 999 }
        ensures { Reads (λ x. x) (spec.assignment room self.old) result self.new }
    {
        match self.peek() {
            Some(Symbol::Step(op)) => self.stepped(room, op),
            _ => {
                let place = self.assigned(room)?;
                self.assignment_to(room, place)
            }
        }
    }

    /// An assignment, with its semicolon.
    #[tactic(auto, unfolding(parse_laws::specs::ReadSimple::assignment_statement))]
    pub(crate) fn assign(&mut self, room: usize) -> Result<Items<RawStmt>, ReadingFault>
        requires { room < 999 }
        ensures { Reads (λ x. x) (spec.assignment_statement room self.old) result self.new }
    {
        let stmt = self.assignment(room)?;
        let mut list = Items::new(self.alloc());
        list.push(stmt)?;
        self.expect(Symbol::Semicolon)?;
        Ok(list)
    }

    /// What begins with a name: a call or an assignment.
    #[tactic(auto, unfolding(parse_laws::specs::ReadSimple::call_or_assignment))]
    pub(crate) fn named(&mut self, room: usize) -> Result<Items<RawStmt>, ReadingFault>
        requires { room < 999 }
        ensures { Reads (λ x. x) (spec.call_or_assignment room self.old) result self.new }
    {
        if self.begins_call() {
            self.called(room, RawTarget::Nothing)
        } else if self.begins_call_into() {
            self.assigned_call(room)
        } else {
            self.assign(room)
        }
    }

    /// The empty statement.
    #[tactic(auto, unfolding(parse_laws::specs::ReadSimple::empty))]
    pub(crate) fn empty(&mut self) -> Result<Items<RawStmt>, ReadingFault>
        ensures { Reads (λ x. x) (spec.empty self.old) result self.new }
    {
        self.expect(Symbol::Semicolon)?;
        only(self.alloc(), RawStmt::Empty)
    }

    /// A `break`, with its semicolon.
    #[tactic(auto, unfolding(parse_laws::specs::ReadSimple::break_statement))]
    pub(crate) fn broken(&mut self) -> Result<Items<RawStmt>, ReadingFault>
        ensures { Reads (λ x. x) (spec.break_statement self.old) result self.new }
    {
        let at = self.expect(Symbol::Break)?;
        self.expect(Symbol::Semicolon)?;
        only(self.alloc(), RawStmt::Break(at))
    }

    /// A `continue`, with its semicolon.
    #[tactic(auto, unfolding(parse_laws::specs::ReadSimple::continue_statement))]
    pub(crate) fn continued(&mut self) -> Result<Items<RawStmt>, ReadingFault>
        ensures { Reads (λ x. x) (spec.continue_statement self.old) result self.new }
    {
        let at = self.expect(Symbol::Continue)?;
        self.expect(Symbol::Semicolon)?;
        only(self.alloc(), RawStmt::Continue(at))
    }

    /// The expression of a `return`, if there is one.
    #[tactic(auto, unfolding(parse_laws::specs::ReadSimple::returned_value))]
    fn returned_value(&mut self, room: usize) -> Result<Option<Boxed<RawExpr>>, ReadingFault>
        requires { room < 999 }
        ensures { Reads (λ x. x) (spec.returned_value room self.old) result self.new }
    {
        if self.sees(Symbol::Semicolon) {
            return Ok(None);
        }
        let a = self.expr(room, 0)?;
        Ok(Some(a.expr))
    }

    /// A `return`, with its semicolon.
    #[tactic(auto, unfolding(parse_laws::specs::ReadSimple::return_statement))]
    pub(crate) fn returned(&mut self, room: usize) -> Result<Items<RawStmt>, ReadingFault>
        requires { room < 999 }
        ensures { Reads (λ x. x) (spec.return_statement room self.old) result self.new }
    {
        let at = self.expect(Symbol::Return)?;
        let value = self.returned_value(room)?;
        self.expect(Symbol::Semicolon)?;
        only(self.alloc(), RawStmt::Return(at, unboxed(value)))
    }
}
