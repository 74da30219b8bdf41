//! Declarations (C11 6.7). `room` is the greatest height of an expression. It is at most 128 in `parse`; that it is
//! asked to be less than 1,000 keeps the heights that are computed far from an overflow.

ghost use Rattle.std.specs.Prelude.{◌≡◌, ◌<◌};
ghost use Rattle.parse_laws.specs.Parser.{another, another_value, phrases};
ghost use Rattle.parse_laws.specs.ReadDecl as spec;
ghost use Rattle.parse_laws.specs.ReadExpr.{expr_phrase};
ghost use Rattle.parse_laws.specs.ReadSimple as simple;
ghost use Rattle.c_parse.specs.Reads.{Reads};

use crate::expr::unboxed;
use crate::reader::Reader;
use c_tree::{RawExpr, RawShape, RawStmt, RawTarget, Symbol, Ty};
use parse_laws::ReadingFault;
use sqlite_items::{Boxed, Items};

impl<'a> Reader<'a> {
    /// Whether a declaration comes next.
    #[tactic(auto, unfolding(parse_laws::specs::ReadDecl::begins_declaration))]
    pub(crate) fn begins_declaration(&self) -> bool
        ensures { result ≡ spec.begins_declaration self.now }
    {
        self.sees(Symbol::Const) || self.begins_type()
    }

    /// The values of a list, up to its `}` or to a comma before it.
    #[tactic(auto, using(parse_laws::proofs::Reading::Lists::list_turns))]
    fn value_list(&mut self, room: usize) -> Result<Items<RawExpr>, ReadingFault>
        requires { room < 999 }
        ensures { Reads (λ x. x) (phrases another_value (expr_phrase room 0) self.old) result self.new }
    {
        let mut list = Items::new(self.alloc());
        for _turn in 0..self.left() {
            let a = self.expr(room, 0)?;
            list.push(a.expr.into_inner())?;
            if !self.another_value() {
                return Ok(list);
            }
            self.take();
        }
        Err(self.refuse())
    }

    /// The length of an array, which may be missing.
    #[tactic(auto, unfolding(parse_laws::specs::ReadDecl::length_phrase))]
    fn size(&mut self, room: usize) -> Result<Option<Boxed<RawExpr>>, ReadingFault>
        requires { room < 999 }
        ensures { Reads (λ x. x) (spec.length_phrase room self.old) result self.new }
    {
        if self.sees_second(Symbol::RightBracket) {
            self.expect(Symbol::LeftBracket)?;
            self.expect(Symbol::RightBracket)?;
            return Ok(None);
        }
        let a = self.index(room)?;
        Ok(Some(a.expr))
    }

    /// The list of an array.
    #[tactic(auto, unfolding(parse_laws::specs::ReadDecl::values))]
    fn values(&mut self, room: usize) -> Result<Items<RawExpr>, ReadingFault>
        requires { room < 999 }
        ensures { Reads (λ x. x) (spec.values room self.old) result self.new }
    {
        self.expect(Symbol::LeftBrace)?;
        let list = self.value_list(room)?;
        self.optional(Symbol::Comma);
        self.expect(Symbol::RightBrace)?;
        Ok(list)
    }

    /// The list of an array, if there is one.
    #[tactic(auto, unfolding(parse_laws::specs::ReadDecl::initialiser_list))]
    fn filled(&mut self, room: usize) -> Result<Option<Items<RawExpr>>, ReadingFault>
        requires { room < 999 }
        ensures { Reads (λ x. x) (spec.initialiser_list room self.old) result self.new }
    {
        if !self.sees(Symbol::Assign) {
            return Ok(None);
        }
        self.expect(Symbol::Assign)?;
        let list = self.values(room)?;
        Ok(Some(list))
    }

    /// The initialiser of a scalar, if there is one.
    #[tactic(auto, unfolding(parse_laws::specs::ReadDecl::initial_value))]
    fn initialised(&mut self, room: usize) -> Result<Option<RawExpr>, ReadingFault>
        requires { room < 999 }
        ensures { Reads (λ x. x) (spec.initial_value room self.old) result self.new }
    {
        if !self.sees(Symbol::Assign) {
            return Ok(None);
        }
        self.expect(Symbol::Assign)?;
        let a = self.expr(room, 0)?;
        Ok(Some(a.expr.into_inner()))
    }

    /// What follows the name of a declarator.
    #[tactic(auto, unfolding(parse_laws::specs::ReadDecl::shape_phrase))]
    pub(crate) fn shaped(&mut self, room: usize) -> Result<RawShape, ReadingFault>
        requires { room < 999 }
        ensures { Reads (λ x. x) (spec.shape_phrase room self.old) result self.new }
    {
        if self.sees(Symbol::LeftBracket) {
            let size = self.size(room)?;
            let list = self.filled(room)?;
            Ok(RawShape::Array(unboxed(size), list))
        } else {
            let value = self.initialised(room)?;
            Ok(RawShape::Scalar(value))
        }
    }

    /// A declarator of a local variable.
    #[tactic(auto, unfolding(parse_laws::specs::ReadDecl::local_declarator, parse_laws::specs::ReadDecl::declarator))]
    fn declared(&mut self, room: usize, constant: bool, ty: Ty) -> Result<RawStmt, ReadingFault>
        requires { room < 999 }
        ensures { Reads (λ x. x) (spec.local_declarator room constant ty self.old) result self.new }
    {
        let spot = self.name()?;
        let shape = self.shaped(room)?;
        Ok(RawStmt::Declare(constant, ty, spot, shape))
    }

    /// Declarators with commas between them. Each takes a token, so there are enough turns.
    #[tactic(auto, using(parse_laws::proofs::Reading::Lists::list_turns))]
    fn declared_list(
        &mut self,
        room: usize,
        constant: bool,
        ty: Ty,
    ) -> Result<Items<RawStmt>, ReadingFault>
        requires { room < 999 }
        ensures { Reads (λ x. x) (phrases another (spec.local_declarator room constant ty) self.old) result self.new }
    {
        let mut list = Items::new(self.alloc());
        for _turn in 0..self.left() {
            let one = self.declared(room, constant, ty)?;
            list.push(one)?;
            if !self.another() {
                return Ok(list);
            }
            self.take();
        }
        Err(self.refuse())
    }

    #[tactic(auto, unfolding(parse_laws::specs::ReadDecl::declarators))]
    fn declarators(
        &mut self,
        room: usize,
        constant: bool,
        ty: Ty,
    ) -> Result<Items<RawStmt>, ReadingFault>
        requires { room < 999 }
        ensures { Reads (λ x. x) (spec.declarators room constant ty self.old) result self.new }
    {
        let list = self.declared_list(room, constant, ty)?;
        self.expect(Symbol::Semicolon)?;
        Ok(list)
    }

    /// A call whose result is that of a declaration.
    #[tactic(auto, unfolding(parse_laws::specs::ReadSimple::call_into))]
    fn declared_call(
        &mut self,
        room: usize,
        constant: bool,
        ty: Ty,
    ) -> Result<Items<RawStmt>, ReadingFault>
        requires { room < 999 }
        ensures { Reads (λ x. x) (simple.call_into room (RawTarget.Declare constant ty) self.old) result self.new }
    {
        let spot = self.name()?;
        self.expect(Symbol::Assign)?;
        self.called(room, RawTarget::Declare(constant, ty, spot))
    }

    /// A declaration of local variables, or of one that takes the result of a call.
    #[tactic(auto, unfolding(parse_laws::specs::ReadDecl::declaration_phrase))]
    pub(crate) fn declaration(&mut self, room: usize) -> Result<Items<RawStmt>, ReadingFault>
        requires { room < 999 }
        ensures { Reads (λ x. x) (spec.declaration_phrase room self.old) result self.new }
    {
        let constant = self.optional(Symbol::Const);
        let ty = self.type_name()?;
        if self.begins_call_into() {
            self.declared_call(room, constant, ty)
        } else {
            self.declarators(room, constant, ty)
        }
    }
}
