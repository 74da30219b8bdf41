//! The statements of a function.

ghost use Rattle.std.specs.Prelude.{◌≡◌, ◌∷◌, [], IfOk, OnOk, option_map, Some};
ghost use Rattle.c_tree.specs.Checking.Naming as naming;
ghost use Rattle.c_tree.specs.Checking.Naming.{
  scope_past_list,
  scope_behind_target,
  scope_behind,
  stmt_of,
  stmts_of,
  list_behind,
  list_locals,
};
ghost use Rattle.c_tree.specs.Checking.Uses.{Left, place_uses, target_uses, has_target, stmt_uses, stmts_uses};
ghost use Rattle.c_tree.specs.declared.unit.RawStmt.TheVariants as raw;
ghost use Rattle.c_faults.specs.Verdicts.{after_uses};
ghost use Rattle.c_resolve.specs.Walks.{scope_of, list_scope, option_behind, option_uses};

use crate::checker::Checker;
use crate::expr;
use c_faults::MAX_BOUND;
use c_names::Entity;
use c_tree::{
    BinOp, NoMemory, Place, RawBound, RawExpr, RawPlace, RawStmt, RawTarget, Spot, Stmt, Target,
};
use sqlite_items::{Boxed, Items};

// A bound, where it is in its range; else 0.
fn bound_number(bound: Option<RawBound>) -> u32
    ensures { result ≡ naming.bound_number bound }
{
    match bound {
        None => 0,
        Some(bound) => {
            if 1 <= bound.value && bound.value <= MAX_BOUND {
                bound.value as u32
            } else {
                0
            }
        }
    }
}

fn has_target(target: &RawTarget) -> bool
    ensures { result ≡ has_target target.now }
{
    match target {
        RawTarget::Nothing => false,
        RawTarget::Assign(_) => true,
        RawTarget::Declare(_, _, _) => true,
    }
}

impl<'a> Checker<'a> {
    // What is assigned to.
    #[tactic(auto, using(c_faults::proofs::AfterUses::after_uses_rules))]
    fn place(&mut self, place: &RawPlace) -> Result<Place, NoMemory>
        ensures tree { IfOk result (λ p. p ≡ naming.place_of self.old.names place.now) }
        ensures scope { scope_of self.new ≡ scope_of self.old }
        ensures first { OnOk result (self.new.verdict ≡ after_uses self.old.verdict
            (place_uses self.old.names place.now)) }
    {
        match place {
            RawPlace::Scalar(x) => {
                let entity = self.names.entity(x.name.as_slice());
                self.verdict.assigned(x.at, entity, false);
                Ok(Place::Scalar(Entity::variable(entity)))
            }
            RawPlace::Elem(x, i) => {
                let entity = self.names.entity(x.name.as_slice());
                self.verdict.assigned(x.at, entity, true);
                let i = expr::expr(self.alloc, &self.names, &mut self.verdict, i)?;
                Ok(Place::Elem(Entity::variable(entity), i))
            }
        }
    }

    // Where the result of a call goes.
    #[tactic(auto, using(c_faults::proofs::AfterUses::after_uses_rules))]
    fn target(&mut self, target: &'a RawTarget) -> Result<Target, NoMemory>
        ensures tree { IfOk result (λ t. t ≡ naming.target_of (scope_of self.old) target.now) }
        ensures scope { OnOk result (scope_of self.new ≡ scope_behind_target (scope_of self.old) target.now) }
        ensures first { OnOk result (self.new.verdict ≡ after_uses self.old.verdict (target_uses (scope_of self.old)
            target.now)) }
    {
        match target {
            RawTarget::Nothing => Ok(Target::Nothing),
            RawTarget::Assign(x) => {
                let entity = self.names.entity(x.name.as_slice());
                self.verdict.assigned(x.at, entity, false);
                Ok(Target::Assign(Entity::variable(entity)))
            }
            RawTarget::Declare(constant, ty, x) => {
                let local = self.declare(*constant, *ty, x, None)?;
                Ok(Target::Declare(local))
            }
        }
    }

    // A call.
    #[tactic(auto, using(c_faults::proofs::AfterUses::after_uses_rules, crate::proofs::StmtLayers::stmt_layers, crate::proofs::StmtLayers::stmt_use_layers, crate::proofs::StmtLayers::behind_layers))]
    fn call(
        &mut self,
        target: &'a RawTarget,
        callee: &Spot,
        arguments: &Items<RawExpr>,
    ) -> Result<Stmt, NoMemory>
        ensures tree { IfOk result (λ s. s ≡ stmt_of (scope_of self.old) (raw.Call target.now callee.now
            arguments.now)) }
        ensures scope { OnOk result (scope_of self.new ≡ scope_behind_target (scope_of self.old) target.now) }
        ensures first { OnOk result (self.new.verdict ≡ after_uses self.old.verdict (stmt_uses (scope_of self.old)
            (raw.Call target.now callee.now arguments.now))) }
    {
        let arguments = arguments.as_slice();
        let is_used = has_target(target);
        let target = self.target(target)?;
        let entity = self.names.entity(callee.name.as_slice());
        self.verdict
            .called(callee.at, entity, arguments.len(), is_used, self.func);
        let arguments = expr::exprs(self.alloc, &self.names, &mut self.verdict, arguments)?;
        Ok(Stmt::Call(target, Entity::function_number(entity), arguments))
    }

    // An assignment.
    #[tactic(auto, using(c_faults::proofs::AfterUses::after_uses_rules, crate::proofs::StmtLayers::stmt_layers, crate::proofs::StmtLayers::stmt_use_layers, crate::proofs::StmtLayers::behind_layers))]
    fn assignment(
        &mut self,
        place: &RawPlace,
        op: Option<BinOp>,
        e: &RawExpr,
    ) -> Result<Stmt, NoMemory>
        ensures tree { IfOk result (λ s. s ≡ stmt_of (scope_of self.old) (raw.Assign place.now op e.now)) }
        ensures scope { OnOk result (scope_of self.new ≡ scope_behind (scope_of self.old)
            (raw.Assign place.now op e.now)) }
        ensures first { OnOk result (self.new.verdict ≡ after_uses self.old.verdict (stmt_uses (scope_of self.old)
            (raw.Assign place.now op e.now))) }
    {
        let place = self.place(place)?;
        let e = expr::expr(self.alloc, &self.names, &mut self.verdict, e)?;
        Ok(Stmt::Assign(place, op, e))
    }

    // A `break` or a `continue`.
    #[tactic(auto, using(c_faults::proofs::AfterUses::after_uses_rules))]
    fn leaving(&mut self, at: u32, stmt: Stmt) -> Stmt
        ensures tree { result ≡ stmt }
        ensures scope { scope_of self.new ≡ scope_of self.old }
        ensures first { self.new.verdict ≡ after_uses self.old.verdict (Left at self.old.looped ∷ []) }
    {
        self.verdict.left(at, self.looped);
        stmt
    }

    // A `return`.
    #[tactic(auto, using(c_faults::proofs::AfterUses::after_uses_rules, crate::proofs::StmtLayers::stmt_layers, crate::proofs::StmtLayers::stmt_use_layers, crate::proofs::StmtLayers::behind_layers))]
    fn returning(&mut self, at: u32, e: &Option<RawExpr>) -> Result<Stmt, NoMemory>
        ensures tree { IfOk result (λ s. s ≡ stmt_of (scope_of self.old) (raw.Return at e.now)) }
        ensures scope { OnOk result (scope_of self.new ≡ scope_behind (scope_of self.old) (raw.Return at e.now)) }
        ensures first { OnOk result (self.new.verdict ≡ after_uses self.old.verdict (stmt_uses (scope_of self.old)
            (raw.Return at e.now))) }
    {
        self.verdict
            .returned(at, e.is_some(), self.returns.is_some());
        let e = expr::optional(self.alloc, &self.names, &mut self.verdict, e)?;
        Ok(Stmt::Return(e))
    }

    /// The statements of a list.
    #[cycle(stmts)]
    pub(crate) fn stmts(&mut self, list: &'a [RawStmt]) -> Result<Items<Stmt>, NoMemory>
        ensures tree { IfOk result (λ xs. xs ≡ stmts_of (scope_of self.old) list.now) }
        ensures scope { OnOk result (scope_of self.new ≡ list_behind (scope_of self.old) list.now) }
        ensures first { OnOk result (self.new.verdict ≡ after_uses self.old.verdict (stmts_uses (scope_of self.old)
            list.now)) }
    {
        let mut stmts = Items::new(self.alloc);
        for stmt in list {
            stmts.push(self.stmt(stmt)?)?;
        }
        Ok(stmts)
    }

    // The statements of a list inside, in a loop or not.
    #[cycle(stmts)]
    fn inner(&mut self, looped: bool, list: &'a Items<RawStmt>) -> Result<Items<Stmt>, NoMemory>
        ensures tree { IfOk result (λ xs. xs ≡ stmts_of (list_scope (scope_of self.old) looped) list.now) }
        ensures scope { OnOk result (scope_of self.new ≡ scope_past_list (scope_of self.old) (list_locals list.now)) }
        ensures first { OnOk result (self.new.verdict ≡ after_uses self.old.verdict
            (stmts_uses (list_scope (scope_of self.old) looped) list.now)) }
    {
        let outer = self.open(looped)?;
        let stmts = self.stmts(list.as_slice())?;
        self.close(outer)?;
        Ok(stmts)
    }

    // One statement, if there is one.
    #[cycle(stmts)]
    #[tactic(auto, using(c_faults::proofs::AfterUses::after_uses_rules))]
    fn held(&mut self, stmt: &'a Option<Boxed<RawStmt>>) -> Result<Option<Boxed<Stmt>>, NoMemory>
        ensures tree { IfOk result (λ x. x ≡ option_map (stmt_of (scope_of self.old)) stmt.now) }
        ensures scope { OnOk result (scope_of self.new ≡ option_behind (scope_of self.old) stmt.now) }
        ensures first { OnOk result (self.new.verdict ≡ after_uses self.old.verdict (option_uses (scope_of self.old)
            stmt.now)) }
    {
        match stmt {
            None => Ok(None),
            Some(stmt) => {
                let stmt = self.stmt(stmt.get())?;
                Ok(Some(Boxed::new(self.alloc, stmt)?))
            }
        }
    }

    // A `while`, whose body is a list inside.
    #[cycle(stmts)]
    #[tactic(auto, using(c_faults::proofs::AfterUses::after_uses_rules, crate::proofs::StmtLayers::stmt_layers, crate::proofs::StmtLayers::stmt_use_layers, crate::proofs::StmtLayers::behind_layers))]
    fn while_loop(
        &mut self,
        at: u32,
        bound: Option<RawBound>,
        body: &'a Items<RawStmt>,
        condition: &RawExpr,
    ) -> Result<Stmt, NoMemory>
        ensures tree { IfOk result (λ s. s ≡ stmt_of (scope_of self.old) (raw.While at bound condition.now body.now)) }
        ensures scope { OnOk result (scope_of self.new ≡ scope_behind (scope_of self.old)
            (raw.While at bound condition.now body.now)) }
        ensures first { OnOk result (self.new.verdict ≡ after_uses self.old.verdict (stmt_uses (scope_of self.old)
            (raw.While at bound condition.now body.now))) }
    {
        self.verdict.looped(at, bound);
        let condition = expr::expr(self.alloc, &self.names, &mut self.verdict, condition)?;
        let body = self.inner(true, body)?;
        Ok(Stmt::While(bound_number(bound), condition, body))
    }

    // A `do`, whose body's names are not in scope in its condition.
    #[cycle(stmts)]
    #[tactic(auto, using(c_faults::proofs::AfterUses::after_uses_rules, crate::proofs::StmtLayers::stmt_layers, crate::proofs::StmtLayers::stmt_use_layers, crate::proofs::StmtLayers::behind_layers))]
    fn do_loop(
        &mut self,
        at: u32,
        bound: Option<RawBound>,
        body: &'a Items<RawStmt>,
        condition: &RawExpr,
    ) -> Result<Stmt, NoMemory>
        ensures tree { IfOk result (λ s. s ≡ stmt_of (scope_of self.old) (raw.Do at bound body.now condition.now)) }
        ensures scope { OnOk result (scope_of self.new ≡ scope_behind (scope_of self.old)
            (raw.Do at bound body.now condition.now)) }
        ensures first { OnOk result (self.new.verdict ≡ after_uses self.old.verdict (stmt_uses (scope_of self.old)
            (raw.Do at bound body.now condition.now))) }
    {
        self.verdict.looped(at, bound);
        let body = self.inner(true, body)?;
        let condition = expr::expr(self.alloc, &self.names, &mut self.verdict, condition)?;
        Ok(Stmt::Do(bound_number(bound), body, condition))
    }

    // A statement.
    #[cycle(stmts)]
    #[tactic(auto, using(c_faults::proofs::AfterUses::after_uses_rules, crate::proofs::StmtLayers::stmt_layers, crate::proofs::StmtLayers::stmt_use_layers, crate::proofs::StmtLayers::behind_layers))]
    fn stmt(&mut self, stmt: &'a RawStmt) -> Result<Stmt, NoMemory>
        ensures tree { IfOk result (λ s. s ≡ stmt_of (scope_of self.old) stmt.now) }
        ensures scope { OnOk result (scope_of self.new ≡ scope_behind (scope_of self.old) stmt.now) }
        ensures first { OnOk result (self.new.verdict ≡ after_uses self.old.verdict (stmt_uses (scope_of self.old)
            stmt.now)) }
    {
        match stmt {
            RawStmt::Empty => Ok(Stmt::Empty),
            RawStmt::Declare(constant, ty, x, shape) => self.declaration(*constant, *ty, x, shape),
            RawStmt::Assign(place, op, e) => self.assignment(place, *op, e),
            RawStmt::Call(target, callee, arguments) => self.call(target, callee, arguments),
            RawStmt::Break(at) => Ok(self.leaving(*at, Stmt::Break)),
            RawStmt::Continue(at) => Ok(self.leaving(*at, Stmt::Continue)),
            RawStmt::Return(at, e) => self.returning(*at, e),
            RawStmt::If(e, first, second) => {
                let e = expr::expr(self.alloc, &self.names, &mut self.verdict, e)?;
                let first = self.inner(self.looped, first)?;
                let second = self.inner(self.looped, second)?;
                Ok(Stmt::If(e, first, second))
            }
            RawStmt::While(at, bound, e, body) => self.while_loop(*at, *bound, body, e),
            RawStmt::Do(at, bound, body, e) => self.do_loop(*at, *bound, body, e),
            RawStmt::For(at, bound, initial, e, step, body) => {
                self.verdict.looped(*at, *bound);
                let outer = self.open(self.looped)?;
                let initial = self.held(initial)?;
                let e = expr::expr(self.alloc, &self.names, &mut self.verdict, e)?;
                let step = self.held(step)?;
                let body = self.inner(true, body)?;
                self.close(outer)?;
                Ok(Stmt::For(bound_number(*bound), initial, e, step, body))
            }
            RawStmt::Group(body) => Ok(Stmt::Group(self.inner(self.looped, body)?)),
        }
    }
}
