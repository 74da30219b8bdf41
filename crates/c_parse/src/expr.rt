//! Expressions (C11 6.5), by climbing over the levels of the operators. `room` is the greatest height that may be read,
//! and so bounds the recursion. It is at most 128 in `parse`; that it and the heights of parts are asked to be less
//! than 1,000 keeps the heights that are computed far from an overflow.

ghost use Rattle.std.specs.Prelude.{◌≡◌, ◌-◌, ◌+◌, ◌<◌, ◌≤◌, length, IfOk};
ghost use Rattle.parse_laws.specs.ReadExpr as spec;
ghost use Rattle.c_parse.specs.Reads.{Reads};

use crate::reader::Reader;
use c_symbols::{
    MeasuredExpr, binary, binds, cast, conditional, element, level, measured, parenthesised,
    scalar, unary, unary_operator,
};
use c_tree::{BinOp, RawExpr, Symbol, UnOp};
use parse_laws::{Next, ReadingFault};
use sqlite_items::Boxed;

/// The level of the unary operators and casts.
const UNARY: u8 = 11;

/// The expression in the box, if there is one.
pub(crate) fn unboxed(value: Option<Boxed<RawExpr>>) -> Option<RawExpr>
    ensures { result ≡ value }
{
    match value {
        None => None,
        Some(a) => Some(a.into_inner()),
    }
}

impl<'a> Reader<'a> {
    /// An expression of the level `least` or a tighter one.
    #[cycle(expr)]
    #[tactic(auto, using(parse_laws::proofs::Reading::Turns::turns))]
    pub(crate) fn expr(&mut self, room: usize, least: u8) -> Result<MeasuredExpr, ReadingFault>
        requires { room < 1000 }
        ensures low { IfOk result (λ t. t.height ≤ room) }
        ensures reads { Reads (λ t. t.expr) (spec.expr_phrase room least self.old) result self.new }
    {
        if room == 0 {
            return Err(self.too_deep());
        }
        let first = self.operand(room - 1)?;
        self.climb(room, least, first)
    }

    /// Goes on from the left operand `first` with the operators of the level `least` or a tighter one.
    #[cycle(expr)]
    #[tactic(auto, using(parse_laws::proofs::Reading::Turns::turns))]
    fn climb(
        &mut self,
        room: usize,
        least: u8,
        first: MeasuredExpr,
    ) -> Result<MeasuredExpr, ReadingFault>
        requires some { 0 < room }
        requires few { room < 1000 }
        requires low { first.height ≤ room }
        ensures low { IfOk result (λ t. t.height ≤ room) }
        ensures reads { Reads (λ t. t.expr) (spec.climb (spec.expr_phrase (room - 1)) room room least first.expr
            self.old)
            result self.new }
    {
        let mut left = first;
        for _turn in 0..room {
            let next = self.next();
            if !binds(least, next) {
                return Ok(left);
            }
            if left.height >= room {
                return Err(self.too_deep());
            }
            match next {
                Next::Stop => return Ok(left),
                Next::Ask => return self.conditional(room - 1, left),
                Next::By(op) => left = self.operation(room - 1, op, left)?,
            }
        }
        Err(self.too_deep())
    }

    /// The operator that comes next, and its right operand.
    #[cycle(expr)]
    #[tactic(auto, using(parse_laws::proofs::Reading::Turns::turns), unfolding(parse_laws::specs::ReadExpr::operation))]
    fn operation(
        &mut self,
        room: usize,
        op: BinOp,
        left: MeasuredExpr,
    ) -> Result<MeasuredExpr, ReadingFault>
        requires some { 0 < length self.old }
        requires few { room < 999 }
        requires low { left.height ≤ room }
        ensures low { IfOk result (λ t. t.height ≤ room + 1) }
        ensures reads { Reads (λ t. t.expr) (spec.operation (spec.expr_phrase room) op left.expr self.old) result
            self.new }
    {
        self.take();
        let right = self.expr(room, level(op) + 1)?;
        binary(self.alloc(), op, left, right)
    }

    /// The two expressions that a `?` chooses from.
    #[cycle(expr)]
    #[tactic(auto, unfolding(parse_laws::specs::ReadExpr::choices))]
    fn choices(&mut self, room: usize) -> Result<(MeasuredExpr, MeasuredExpr), ReadingFault>
        requires { room < 999 }
        ensures first { IfOk result (λ p. p.0.height ≤ room) }
        ensures second { IfOk result (λ p. p.1.height ≤ room) }
        ensures reads { Reads (λ p. (p.0.expr, p.1.expr)) (spec.choices (spec.expr_phrase room) self.old) result
            self.new }
    {
        let a = self.expr_before(room, Symbol::Colon)?;
        let b = self.expr(room, 0)?;
        Ok((a, b))
    }

    /// The `?` that comes next, and the two expressions that it chooses from.
    #[cycle(expr)]
    #[tactic(auto, unfolding(parse_laws::specs::ReadExpr::conditional))]
    fn conditional(&mut self, room: usize, left: MeasuredExpr) -> Result<MeasuredExpr, ReadingFault>
        requires some { 0 < length self.old }
        requires few { room < 999 }
        requires low { left.height ≤ room }
        ensures low { IfOk result (λ t. t.height ≤ room + 1) }
        ensures reads { Reads (λ t. t.expr) (spec.conditional (spec.expr_phrase room) left.expr self.old) result
            self.new }
    {
        self.take();
        let (a, b) = self.choices(room)?;
        conditional(self.alloc(), left, a, b)
    }

    #[cycle(expr)]
    #[tactic(auto, using(parse_laws::proofs::Reading::Turns::turns), unfolding(parse_laws::specs::ReadExpr::operand))]
    fn operand(&mut self, room: usize) -> Result<MeasuredExpr, ReadingFault>
        requires { room < 999 }
        ensures low { IfOk result (λ t. t.height ≤ room + 1) }
        ensures reads { Reads (λ t. t.expr) (spec.operand (spec.expr_phrase room) self.old) result self.new }
    {
        match self.peek() {
            None => Err(self.refuse()),
            Some(Symbol::Number) => {
                let number = self.number()?;
                measured(self.alloc(), number, 1)
            }
            Some(Symbol::Name) => self.variable(room),
            Some(Symbol::LeftParen) => self.parenthesised(room),
            Some(found) => match unary_operator(found) {
                None => Err(self.refuse()),
                Some(op) => self.unary(room, op),
            },
        }
    }

    /// The unary operator that comes next, and its operand.
    #[cycle(expr)]
    #[tactic(auto, unfolding(parse_laws::specs::ReadExpr::unary_phrase))]
    fn unary(&mut self, room: usize, op: UnOp) -> Result<MeasuredExpr, ReadingFault>
        requires some { 0 < length self.old }
        requires few { room < 999 }
        ensures low { IfOk result (λ t. t.height ≤ room + 1) }
        ensures reads { Reads (λ t. t.expr) (spec.unary_phrase (spec.expr_phrase room) op self.old) result self.new }
    {
        let at = self.place();
        self.take();
        let a = self.expr(room, UNARY)?;
        unary(self.alloc(), at, op, a)
    }

    /// A scalar, or an element of an array.
    #[cycle(expr)]
    #[tactic(auto, unfolding(parse_laws::specs::ReadExpr::variable_phrase, parse_laws::specs::ReadExpr::element_or_name))]
    fn variable(&mut self, room: usize) -> Result<MeasuredExpr, ReadingFault>
        requires { room < 999 }
        ensures low { IfOk result (λ t. t.height ≤ room + 1) }
        ensures reads { Reads (λ t. t.expr) (spec.variable_phrase (spec.expr_phrase room) self.old) result self.new }
    {
        let spot = self.name()?;
        if !self.sees(Symbol::LeftBracket) {
            return scalar(self.alloc(), spot);
        }
        let a = self.index(room)?;
        element(self.alloc(), spot, a)
    }

    /// An expression, and the symbol after it.
    #[cycle(expr)]
    #[tactic(auto, unfolding(parse_laws::specs::ReadExpr::expr_before))]
    pub(crate) fn expr_before(
        &mut self,
        room: usize,
        mark: Symbol,
    ) -> Result<MeasuredExpr, ReadingFault>
        requires { room < 999 }
        ensures low { IfOk result (λ t. t.height ≤ room) }
        ensures reads { Reads (λ t. t.expr) (spec.expr_before (spec.expr_phrase room) mark self.old) result self.new }
    {
        let a = self.expr(room, 0)?;
        self.expect(mark)?;
        Ok(a)
    }

    /// The brackets after a name, and what stands in them.
    #[cycle(expr)]
    #[tactic(auto, unfolding(parse_laws::specs::ReadExpr::index_phrase))]
    pub(crate) fn index(&mut self, room: usize) -> Result<MeasuredExpr, ReadingFault>
        requires { room < 999 }
        ensures low { IfOk result (λ t. t.height ≤ room) }
        ensures reads { Reads (λ t. t.expr) (spec.index_phrase (spec.expr_phrase room) self.old) result self.new }
    {
        self.expect(Symbol::LeftBracket)?;
        self.expr_before(room, Symbol::RightBracket)
    }

    /// A cast, or an expression in parentheses.
    #[cycle(expr)]
    #[tactic(auto, unfolding(parse_laws::specs::ReadExpr::parenthesis_phrase, parse_laws::specs::ReadExpr::cast_or_parentheses))]
    fn parenthesised(&mut self, room: usize) -> Result<MeasuredExpr, ReadingFault>
        requires { room < 999 }
        ensures low { IfOk result (λ t. t.height ≤ room + 1) }
        ensures reads { Reads (λ t. t.expr) (spec.parenthesis_phrase (spec.expr_phrase room) self.old) result self.new }
    {
        let at = self.expect(Symbol::LeftParen)?;
        if self.begins_type() {
            self.cast(room, at)
        } else {
            self.paren(room, at)
        }
    }

    /// What stands after the `(` of a cast, whose place is `at`.
    #[cycle(expr)]
    #[tactic(auto, unfolding(parse_laws::specs::ReadExpr::cast))]
    fn cast(&mut self, room: usize, at: u32) -> Result<MeasuredExpr, ReadingFault>
        requires { room < 999 }
        ensures low { IfOk result (λ t. t.height ≤ room + 1) }
        ensures reads { Reads (λ t. t.expr) (spec.cast (spec.expr_phrase room) at self.old) result self.new }
    {
        let ty = self.type_name()?;
        self.expect(Symbol::RightParen)?;
        let a = self.expr(room, UNARY)?;
        cast(self.alloc(), at, ty, a)
    }

    /// What stands after the `(` of an expression in parentheses, whose place is `at`.
    #[cycle(expr)]
    #[tactic(auto, unfolding(parse_laws::specs::ReadExpr::expr_in_parentheses))]
    fn paren(&mut self, room: usize, at: u32) -> Result<MeasuredExpr, ReadingFault>
        requires { room < 999 }
        ensures low { IfOk result (λ t. t.height ≤ room + 1) }
        ensures reads { Reads (λ t. t.expr) (spec.expr_in_parentheses (spec.expr_phrase room) at self.old) result
            self.new }
    {
        let a = self.expr_before(room, Symbol::RightParen)?;
        parenthesised(self.alloc(), at, a)
    }
}
