//! Declarations and functions at file scope, and whole texts (C11 6.9). `room` is the greatest height of an expression
//! of a declaration, and of a statement of a function's list. It is at most 128 in `parse`; that it is asked to be less
//! than 1,000 keeps the heights that are computed far from an overflow.

ghost use Rattle.std.specs.Prelude.{◌≡◌, ◌<◌, [], ◌∷◌, true, false, Some, None, Ok};
ghost use Rattle.parse_laws.specs.Parser.{another, phrases};
ghost use Rattle.parse_laws.specs.ReadUnit as spec;
ghost use Rattle.c_parse.specs.Reads.{Reads};

use crate::reader::Reader;
use c_tree::{RawFunc, RawParam, RawTop, Symbol, Ty};
use parse_laws::ReadingFault;
use sqlite_items::Items;
use std::alloc::Global;

/// The list of this function alone.
fn only(alloc: Global, function: RawFunc) -> Result<Items<RawTop>, ReadingFault>
    ensures { Reads (λ x. x) (Ok (RawTop.Func function ∷ [], [])) result [] }
{
    let mut list = Items::new(alloc);
    list.push(RawTop::Func(function))?;
    Ok(list)
}

impl<'a> Reader<'a> {
    #[tactic(auto, unfolding(parse_laws::specs::ReadUnit::param))]
    fn param(&mut self) -> Result<RawParam, ReadingFault>
        ensures { Reads (λ x. x) (spec.param self.old) result self.new }
    {
        let ty = self.type_name()?;
        let spot = self.name()?;
        Ok(RawParam { ty, spot })
    }

    /// Parameters with commas between them. Each takes a token, so there are enough turns.
    #[tactic(auto, using(parse_laws::proofs::Reading::Lists::list_turns))]
    fn param_list(&mut self) -> Result<Items<RawParam>, ReadingFault>
        ensures { Reads (λ x. x) (phrases another spec.param self.old) result self.new }
    {
        let mut list = Items::new(self.alloc());
        for _turn in 0..self.left() {
            let one = self.param()?;
            list.push(one)?;
            if !self.another() {
                return Ok(list);
            }
            self.take();
        }
        Err(self.refuse())
    }

    #[tactic(auto, unfolding(parse_laws::specs::ReadUnit::params))]
    fn params(&mut self) -> Result<Items<RawParam>, ReadingFault>
        ensures { Reads (λ x. x) (spec.params self.old) result self.new }
    {
        if self.sees(Symbol::RightParen) {
            return Ok(Items::new(self.alloc()));
        }
        if self.sees(Symbol::Void) {
            self.expect(Symbol::Void)?;
            return Ok(Items::new(self.alloc()));
        }
        self.param_list()
    }

    /// An extern variable, which may be an array.
    #[tactic(auto, unfolding(parse_laws::specs::ReadUnit::outer_declarator))]
    fn outer_declarator(
        &mut self,
        room: usize,
        constant: bool,
        ty: Ty,
    ) -> Result<RawTop, ReadingFault>
        requires { room < 999 }
        ensures { Reads (λ x. x) (spec.outer_declarator room constant ty self.old) result self.new }
    {
        let spot = self.name()?;
        if !self.sees(Symbol::LeftBracket) {
            return Ok(RawTop::Outer(constant, ty, spot, None));
        }
        let size = self.index(room)?;
        Ok(RawTop::Outer(constant, ty, spot, Some(size.expr.into_inner())))
    }

    #[tactic(auto, using(parse_laws::proofs::Reading::Lists::list_turns))]
    fn outer_list(
        &mut self,
        room: usize,
        constant: bool,
        ty: Ty,
    ) -> Result<Items<RawTop>, ReadingFault>
        requires { room < 999 }
        ensures { Reads (λ x. x) (phrases another (spec.outer_declarator room constant ty) self.old) result self.new }
    {
        let mut list = Items::new(self.alloc());
        for _turn in 0..self.left() {
            let one = self.outer_declarator(room, constant, ty)?;
            list.push(one)?;
            if !self.another() {
                return Ok(list);
            }
            self.take();
        }
        Err(self.refuse())
    }

    #[tactic(auto, unfolding(parse_laws::specs::ReadUnit::outers))]
    fn outers(&mut self, room: usize) -> Result<Items<RawTop>, ReadingFault>
        requires { room < 999 }
        ensures { Reads (λ x. x) (spec.outers room self.old) result self.new }
    {
        self.expect(Symbol::Extern)?;
        let constant = self.optional(Symbol::Const);
        let ty = self.type_name()?;
        let list = self.outer_list(room, constant, ty)?;
        self.expect(Symbol::Semicolon)?;
        Ok(list)
    }

    /// A declarator of a variable.
    #[tactic(auto, unfolding(parse_laws::specs::ReadUnit::global, parse_laws::specs::ReadDecl::declarator))]
    fn global(
        &mut self,
        room: usize,
        kept: bool,
        constant: bool,
        ty: Ty,
    ) -> Result<RawTop, ReadingFault>
        requires { room < 999 }
        ensures { Reads (λ x. x) (spec.global room kept constant ty self.old) result self.new }
    {
        let spot = self.name()?;
        let shape = self.shaped(room)?;
        Ok(RawTop::Global(kept, constant, ty, spot, shape))
    }

    #[tactic(auto, using(parse_laws::proofs::Reading::Lists::list_turns))]
    fn global_list(
        &mut self,
        room: usize,
        kept: bool,
        constant: bool,
        ty: Ty,
    ) -> Result<Items<RawTop>, ReadingFault>
        requires { room < 999 }
        ensures { Reads (λ x. x) (phrases another (spec.global room kept constant ty) self.old) result self.new }
    {
        let mut list = Items::new(self.alloc());
        for _turn in 0..self.left() {
            let one = self.global(room, kept, constant, ty)?;
            list.push(one)?;
            if !self.another() {
                return Ok(list);
            }
            self.take();
        }
        Err(self.refuse())
    }

    #[tactic(auto, unfolding(parse_laws::specs::ReadUnit::globals))]
    fn globals(
        &mut self,
        room: usize,
        kept: bool,
        constant: bool,
        ty: Ty,
    ) -> Result<Items<RawTop>, ReadingFault>
        requires { room < 999 }
        ensures { Reads (λ x. x) (spec.globals room kept constant ty self.old) result self.new }
    {
        let list = self.global_list(room, kept, constant, ty)?;
        self.expect(Symbol::Semicolon)?;
        Ok(list)
    }

    /// A function from its name on.
    #[tactic(auto, unfolding(parse_laws::specs::ReadUnit::function))]
    fn function(
        &mut self,
        room: usize,
        kept: bool,
        gives: Option<Ty>,
    ) -> Result<Items<RawTop>, ReadingFault>
        requires { room < 999 }
        ensures { Reads (λ x. x) (spec.function room kept gives self.old) result self.new }
    {
        let spot = self.name()?;
        self.expect(Symbol::LeftParen)?;
        let params = self.params()?;
        self.expect(Symbol::RightParen)?;
        let body = self.block(room)?;
        let function = RawFunc {
            kept,
            result: gives,
            spot,
            params,
            body,
        };
        only(self.alloc(), function)
    }

    /// Variables, or a function that gives a value.
    #[tactic(auto, unfolding(parse_laws::specs::ReadUnit::variables_or_function))]
    fn variables_or_function(
        &mut self,
        room: usize,
        kept: bool,
    ) -> Result<Items<RawTop>, ReadingFault>
        requires { room < 999 }
        ensures { Reads (λ x. x) (spec.variables_or_function room kept self.old) result self.new }
    {
        let ty = self.type_name()?;
        if self.begins_call() {
            self.function(room, kept, Some(ty))
        } else {
            self.globals(room, kept, false, ty)
        }
    }

    /// What may stand after `static`.
    #[tactic(auto, unfolding(parse_laws::specs::ReadUnit::after_static))]
    fn after_static(&mut self, room: usize, kept: bool) -> Result<Items<RawTop>, ReadingFault>
        requires { room < 999 }
        ensures { Reads (λ x. x) (spec.after_static room kept self.old) result self.new }
    {
        if self.sees(Symbol::Const) {
            self.expect(Symbol::Const)?;
            let ty = self.type_name()?;
            return self.globals(room, kept, true, ty);
        }
        if self.sees(Symbol::Void) {
            self.expect(Symbol::Void)?;
            return self.function(room, kept, None);
        }
        self.variables_or_function(room, kept)
    }

    /// A declaration or a function.
    #[tactic(auto, unfolding(parse_laws::specs::ReadUnit::top_of))]
    fn top_of(&mut self, room: usize) -> Result<Items<RawTop>, ReadingFault>
        requires { room < 999 }
        ensures { Reads (λ x. x) (spec.top_of room self.old) result self.new }
    {
        if self.sees(Symbol::Extern) {
            return self.outers(room);
        }
        let kept = self.optional(Symbol::Static);
        self.after_static(room, kept)
    }

    /// Whether no token is left.
    #[tactic(auto, using(parse_laws::proofs::Reading::Until::ends))]
    fn is_end(&self) -> bool
        ensures { result ≡ spec.is_end self.now }
    {
        match self.peek() {
            None => true,
            Some(_) => false,
        }
    }

    #[tactic(auto, unfolding(parse_laws::specs::ReadUnit::unit_end))]
    fn finished(&mut self, list: Items<RawTop>) -> Result<Items<RawTop>, ReadingFault>
        ensures { Reads (λ x. x) (spec.unit_end list self.old) result self.new }
    {
        if !self.is_end() {
            return Err(self.refuse());
        }
        Ok(list)
    }

    /// All tokens. What is declared takes a token, so there are enough turns.
    #[tactic(auto, using(parse_laws::proofs::Reading::Until::until_turns))]
    pub(crate) fn whole(&mut self, room: usize) -> Result<Items<RawTop>, ReadingFault>
        requires { room < 999 }
        ensures { Reads (λ x. x) (spec.whole_unit room self.old) result self.new }
    {
        let mut list = Items::new(self.alloc());
        for _turn in 0..self.left() {
            if self.is_end() {
                return self.finished(list);
            }
            let one = self.top_of(room)?;
            list.append(one)?;
        }
        self.finished(list)
    }
}
