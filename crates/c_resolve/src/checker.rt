//! The walk over a function: its scopes, its locals and its declarations.

ghost use Rattle.std.specs.Prelude.{◌≡◌, ◌++◌, IfOk, OnOk, List, [], option_map, length, unwrap_or, Some};
ghost use Rattle.c_tree.specs.Checking.Naming as naming;
ghost use Rattle.c_tree.specs.Checking.Constants.{exprs_of, declared_length, shape_length};
ghost use Rattle.c_tree.specs.Checking.Uses.{
  declared_at,
  length_uses,
  list_uses,
  declarator_uses,
  sized_use,
  params_uses,
  stmts_uses,
  constant_uses,
  constants_uses,
};
ghost use Rattle.std.specs.Option.{option_map_or};
ghost use Rattle.c_tree.specs.Checking.Naming.{stmts_of, list_behind};
ghost use Rattle.c_resolve.specs.Entered.{function_scope};
ghost use Rattle.c_faults.specs.Verdicts.{after_use, after_uses};
ghost use Rattle.c_resolve.specs.Walks.{scope_of, list_scope, IsOuter, scope_at_end};

use crate::expr;
use c_faults::Verdict;
use c_names::{Entity, Names};
use c_tree::{Local, Name, NoMemory, RawExpr, RawFunc, RawParam, RawShape, Spot, Stmt, Ty, Var};
use sqlite_items::Items;
use std::alloc::Global;
use std::mem;

/// Where the walk stands: the names in scope, the depth of the innermost scope, the function's locals so far, its
/// number and what it returns, whether a loop is around, and what is wrong so far.
#[derive(Drop)]
pub(crate) struct Checker<'a> {
    pub(crate) alloc: Global,
    pub(crate) names: Names<'a>,
    pub(crate) depth: usize,
    pub(crate) locals: Items<Local>,
    pub(crate) func: u32,
    pub(crate) returns: Option<Ty>,
    pub(crate) looped: bool,
    pub(crate) verdict: Verdict,
}

/// What is kept of a scope while one inside it is open: its depth, whether a loop is around it, and how many names it
/// has.
#[derive(Clone, Copy)]
pub(crate) struct Outer {
    pub(crate) depth: usize,
    pub(crate) looped: bool,
    pub(crate) count: usize,
}

impl<'a> Checker<'a> {
    /// Opens a scope inside.
    pub(crate) fn open(&mut self, looped: bool) -> Result<Outer, NoMemory>
        ensures outer { IfOk result (IsOuter (scope_of self.old)) }
        ensures scope { OnOk result (scope_of self.new ≡ list_scope (scope_of self.old) looped) }
        ensures same { self.new.verdict ≡ self.old.verdict }
    {
        let outer = Outer {
            depth: self.depth,
            looped: self.looped,
            count: self.names.count(),
        };
        match self.depth.checked_add(1) {
            Some(depth) => self.depth = depth,
            None => return Err(NoMemory),
        }
        self.looped = looped;
        Ok(outer)
    }

    /// Ends the scope inside.
    pub(crate) fn close(&mut self, outer: Outer) -> Result<(), NoMemory>
        ensures scope { OnOk result (scope_of self.new ≡ scope_at_end (scope_of self.old) outer) }
        ensures same { self.new.verdict ≡ self.old.verdict }
    {
        self.names.close(outer.count)?;
        self.depth = outer.depth;
        self.looped = outer.looped;
        Ok(())
    }

    /// Declares a local, an array where it has a length, and answers its number.
    pub(crate) fn declare(
        &mut self,
        constant: bool,
        ty: Ty,
        x: &'a Spot,
        size: Option<u32>,
    ) -> Result<u32, NoMemory>
        ensures number { IfOk result (λ n. n ≡ length self.old.locals) }
        ensures scope { OnOk result (scope_of self.new ≡ naming.scope_with_local (scope_of self.old) constant ty
            x.now.name size) }
        ensures first { OnOk result (self.new.verdict ≡ after_use self.old.verdict
            (declared_at self.old.names self.old.depth x.now)) }
    {
        let name = x.name.as_slice();
        let again = self.names.is_known_at(self.depth, name);
        self.verdict.declared(x.at, again);
        let Ok(local) = u32::try_from(self.locals.len()) else {
            return Err(NoMemory);
        };
        let entity = Entity::Variable {
            var: Var::Local(local),
            array: size.is_some(),
            constant,
        };
        self.names.declare(name, self.depth, entity)?;
        let name = Name::from_slice(self.alloc, name)?;
        self.locals.push(Local {
            name,
            ty,
            length: size,
        })?;
        Ok(local)
    }

    /// A declaration in a list.
    #[tactic(auto, using(c_faults::proofs::AfterUses::after_uses_rules))]
    pub(crate) fn declaration(
        &mut self,
        constant: bool,
        ty: Ty,
        x: &'a Spot,
        shape: &RawShape,
    ) -> Result<Stmt, NoMemory>
        ensures tree { IfOk result (λ s. s ≡ naming.declaration_stmt (naming.scope_with_local (scope_of self.old)
            constant ty x.now.name (shape_length shape.now)).known (length self.old.locals) shape.now) }
        ensures scope { OnOk result (scope_of self.new ≡ naming.scope_with_local (scope_of self.old) constant ty
            x.now.name (shape_length shape.now)) }
        ensures first { OnOk result (self.new.verdict ≡ after_uses self.old.verdict
            (declarator_uses (scope_of self.old) constant ty x.now shape.now)) }
    {
        match shape {
            RawShape::Scalar(e) => {
                let local = self.declare(constant, ty, x, None)?;
                let e = expr::optional(self.alloc, &self.names, &mut self.verdict, e)?;
                Ok(Stmt::Scalar(local, e))
            }
            RawShape::Array(length, list) => {
                expr::length(self.alloc, &self.names, &mut self.verdict, length)?;
                let size = c_constants::array_length(length, list)?;
                let local = self.declare(constant, ty, x, Some(size))?;
                self.verdict.sized(x.at, size, expr::count(list), true);
                let list = expr::list(self.alloc, &self.names, &mut self.verdict, list)?;
                Ok(Stmt::Array(local, list))
            }
        }
    }

    /// The length of an array, if it is written.
    pub(crate) fn length(&mut self, e: &Option<RawExpr>) -> Result<(), NoMemory>
        ensures names { self.new.names ≡ self.old.names }
        ensures first { OnOk result (self.new.verdict ≡ after_uses self.old.verdict (length_uses self.old.names e.now)) }
    {
        expr::length(self.alloc, &self.names, &mut self.verdict, e)
    }

    /// The number of a scalar's initialiser at file scope, if there is one.
    pub(crate) fn initial_number(
        &mut self,
        ty: Ty,
        e: &Option<RawExpr>,
    ) -> Result<Items<i64>, NoMemory>
        ensures numbers { IfOk result (λ zs. zs ≡ naming.shape_values ty (RawShape.Scalar e.now)) }
        ensures names { self.new.names ≡ self.old.names }
        ensures first { OnOk result (self.new.verdict ≡ after_uses self.old.verdict
            (option_map_or (constant_uses self.old.names) e.now [])) }
    {
        expr::initial_number(self.alloc, &self.names, &mut self.verdict, ty, e)
    }

    /// The numbers of an array's list at file scope, if there is one.
    pub(crate) fn initial_numbers(
        &mut self,
        ty: Ty,
        list: &Option<Items<RawExpr>>,
    ) -> Result<Items<i64>, NoMemory>
        ensures numbers { IfOk result (λ zs. zs ≡ naming.kept_numbers ty (unwrap_or list.now [])) }
        ensures names { self.new.names ≡ self.old.names }
        ensures first { OnOk result (self.new.verdict ≡ after_uses self.old.verdict (constants_uses self.old.names
            (unwrap_or list.now []))) }
    {
        expr::initial_numbers(self.alloc, &self.names, &mut self.verdict, ty, list)
    }

    /// Declares the parameters in order.
    #[tactic(auto, using(c_faults::proofs::AfterUses::after_uses_rules))]
    fn params(&mut self, params: &'a [RawParam]) -> Result<(), NoMemory>
        ensures scope { OnOk result (scope_of self.new ≡ naming.with_params (scope_of self.old) params.now) }
        ensures first { OnOk result (self.new.verdict ≡ after_uses self.old.verdict (params_uses (scope_of self.old)
            params.now)) }
    {
        for param in params {
            let _ = self.declare(false, param.ty, &param.spot, None)?;
        }
        Ok(())
    }

    // Begins the function of a number.
    fn enter(&mut self, number: u32, returns: Option<Ty>)
        ensures scope { scope_of self.new ≡ function_scope self.old.names number returns }
        ensures same { self.new.verdict ≡ self.old.verdict }
    {
        self.depth = 2;
        self.locals = Items::new(self.alloc);
        self.func = number;
        self.returns = returns;
        self.looped = false;
    }

    /// The locals and the statements of the function of a number. Its names are in scope no more.
    #[tactic(auto, using(c_faults::proofs::AfterUses::after_uses_rules))]
    pub(crate) fn function(&mut self, number: u32, func: &'a RawFunc) -> Result<Body, NoMemory>
        ensures locals { IfOk result (λ b. b.locals
            ≡ (list_behind (naming.with_params (function_scope self.old.names number func.now.result) func.now.params)
            func.now.body).locals) }
        ensures stmts { IfOk result (λ b. b.stmts
            ≡ stmts_of (naming.with_params (function_scope self.old.names number func.now.result) func.now.params)
            func.now.body) }
        ensures names { OnOk result (self.new.names ≡ self.old.names) }
        ensures first { OnOk result (self.new.verdict ≡ after_uses self.old.verdict
            (params_uses (function_scope self.old.names number func.now.result) func.now.params
            ++ stmts_uses (naming.with_params (function_scope self.old.names number func.now.result) func.now.params)
            func.now.body)) }
    {
        let count = self.names.count();
        self.enter(number, func.result);
        self.params(func.params.as_slice())?;
        let stmts = self.stmts(func.body.as_slice())?;
        self.names.close(count)?;
        let locals = mem::replace(&mut self.locals, Items::new(self.alloc));
        Ok(Body { locals, stmts })
    }
}

/// The locals of a function, its parameters first, and the statements of its outermost list.
#[derive(Drop)]
pub(crate) struct Body {
    pub(crate) locals: Items<Local>,
    pub(crate) stmts: Items<Stmt>,
}
