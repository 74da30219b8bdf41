//! The walk over a unit: its globals and its functions.

ghost use Rattle.std.specs.Prelude.{◌≡◌, ◌+◌, ◌++◌, ◌∷◌, [], None, Some, true, false, IfOk, OnOk, length, is_some};
ghost use Rattle.c_tree.specs.Checking.Scopes.{Function};
ghost use Rattle.c_names.specs.Tables.{entity_view};
ghost use Rattle.c_tree.specs.Checking.Naming.{
  file_start,
  known_funcs,
  behind_top,
  with_global,
  func_in_file,
  funcs_of,
  globals_of,
  shape_values,
};
ghost use Rattle.c_tree.specs.Checking.Uses.{
  declared_at,
  top_uses,
  tops_uses,
  global_uses,
  outer_uses,
  func_uses,
  Sized,
};
ghost use Rattle.c_tree.specs.Checking.Constants.{shape_length};
ghost use Rattle.c_faults.specs.Verdicts.{after_use, after_uses};
ghost use Rattle.c_resolve.specs.Files.{file_of, top_funcs, top_globals, outer_length, func_count};

use crate::checker::{Body, Checker};
use crate::expr;
use c_faults::Verdict;
use c_names::{Entity, Names};
use c_tree::{
    Func, Global as Outside, Name, NoMemory, RawExpr, RawFunc, RawShape, RawTop, Spot, Ty, Var,
};
use sqlite_items::Items;
use std::alloc::Global;

/// The depth of the scope that has the functions of the whole unit.
const WHOLE_UNIT: usize = 0;
/// The depth of file scope.
const FILE_SCOPE: usize = 1;

/// Where the walk over a unit stands, and the globals and functions so far.
#[derive(Drop)]
pub(crate) struct UnitChecker<'a> {
    pub(crate) checker: Checker<'a>,
    pub(crate) globals: Items<Outside>,
    pub(crate) funcs: Items<Func>,
}

// A number of a global or of a function.
fn number_of(count: usize) -> Result<u32, NoMemory>
    ensures { IfOk result (λ n. n ≡ count) }
{
    match u32::try_from(count) {
        Ok(number) => Ok(number),
        Err(_) => Err(NoMemory),
    }
}

impl<'a> UnitChecker<'a> {
    /// Before the first declaration of a unit, whose functions are known in the whole of it.
    pub(crate) fn start(alloc: Global, tops: &'a [RawTop]) -> Result<Self, NoMemory>
        ensures file { IfOk result (λ u. file_of u ≡ file_start tops.now) }
        ensures globals { IfOk result (λ u. u.globals ≡ []) }
        ensures funcs { IfOk result (λ u. u.funcs ≡ []) }
        ensures first { IfOk result (λ u. u.checker.verdict ≡ None) }
    {
        let mut names = Names::new(alloc);
        know(&mut names, tops)?;
        let checker = Checker {
            alloc,
            names,
            depth: FILE_SCOPE,
            locals: Items::new(alloc),
            func: 0,
            returns: None,
            looped: false,
            verdict: Verdict::new(),
        };
        Ok(UnitChecker {
            checker,
            globals: Items::new(alloc),
            funcs: Items::new(alloc),
        })
    }

    // Declares a global.
    fn declare(&mut self, constant: bool, x: &'a Spot, array: bool) -> Result<(), NoMemory>
        ensures names { OnOk result (self.new.checker.names
            ≡ (with_global (file_of self.old) constant x.now.name array).known) }
        ensures globals { self.new.globals ≡ self.old.globals }
        ensures funcs { self.new.funcs ≡ self.old.funcs }
        ensures first { OnOk result (self.new.checker.verdict ≡ after_use self.old.checker.verdict
            (declared_at self.old.checker.names 1 x.now)) }
    {
        let name = x.name.as_slice();
        let again = self.checker.names.is_known_at(FILE_SCOPE, name);
        self.checker.verdict.declared(x.at, again);
        let number = number_of(self.globals.len())?;
        let entity = Entity::Variable {
            var: Var::Global(number),
            array,
            constant,
        };
        self.checker.names.declare(name, FILE_SCOPE, entity)
    }

    // Keeps a global that is declared.
    fn keep(
        &mut self,
        ty: Ty,
        x: &Spot,
        size: Option<u32>,
        outer: bool,
        values: Items<i64>,
    ) -> Result<(), NoMemory>
        ensures names { self.new.checker ≡ self.old.checker }
        ensures globals { OnOk result (self.new.globals ≡ self.old.globals
            ++ (record { name = x.now.name; ty = ty; length = size; outer = outer; values = values }) ∷ []) }
        ensures funcs { self.new.funcs ≡ self.old.funcs }
    {
        let name = Name::from_slice(self.checker.alloc, x.name.as_slice())?;
        self.globals.push(Outside {
            name,
            ty,
            length: size,
            outer,
            values,
        })?;
        Ok(())
    }

    // An extern variable.
    #[tactic(auto, using(c_faults::proofs::AfterUses::after_uses_rules))]
    fn outer(
        &mut self,
        constant: bool,
        ty: Ty,
        x: &'a Spot,
        length: &Option<RawExpr>,
    ) -> Result<(), NoMemory>
        ensures file { OnOk result (file_of self.new ≡ behind_top (file_of self.old) (RawTop.Outer constant ty x.now
            length.now)) }
        ensures globals { OnOk result (self.new.globals ≡ self.old.globals
            ++ top_globals (RawTop.Outer constant ty x.now length.now)) }
        ensures funcs { OnOk result (self.new.funcs ≡ self.old.funcs) }
        ensures first { OnOk result (self.new.checker.verdict ≡ after_uses self.old.checker.verdict
            (outer_uses (file_of self.old) x.now length.now)) }
    {
        self.checker.length(length)?;
        match outer_length(length) {
            None => self.outer_scalar(constant, ty, x),
            Some(size) => self.outer_array(constant, ty, x, size),
        }
    }

    // A scalar that is extern.
    #[tactic(auto, using(c_faults::proofs::AfterUses::after_uses_rules))]
    fn outer_scalar(&mut self, constant: bool, ty: Ty, x: &'a Spot) -> Result<(), NoMemory>
        ensures names { OnOk result (self.new.checker.names
            ≡ (with_global (file_of self.old) constant x.now.name false).known) }
        ensures globals { OnOk result (self.new.globals ≡ self.old.globals
            ++ (record { name = x.now.name; ty = ty; length = None; outer = true; values = [] }) ∷ []) }
        ensures funcs { OnOk result (self.new.funcs ≡ self.old.funcs) }
        ensures first { OnOk result (self.new.checker.verdict ≡ after_use self.old.checker.verdict
            (declared_at self.old.checker.names 1 x.now)) }
    {
        self.declare(constant, x, false)?;
        self.keep(ty, x, None, true, Items::new(self.checker.alloc))
    }

    // An array that is extern, of this length.
    #[tactic(auto, using(c_faults::proofs::AfterUses::after_uses_rules))]
    fn outer_array(
        &mut self,
        constant: bool,
        ty: Ty,
        x: &'a Spot,
        size: u32,
    ) -> Result<(), NoMemory>
        ensures names { OnOk result (self.new.checker.names
            ≡ (with_global (file_of self.old) constant x.now.name true).known) }
        ensures globals { OnOk result (self.new.globals ≡ self.old.globals
            ++ (record { name = x.now.name; ty = ty; length = Some size; outer = true; values = [] }) ∷ []) }
        ensures funcs { OnOk result (self.new.funcs ≡ self.old.funcs) }
        ensures first { OnOk result (self.new.checker.verdict
            ≡ after_use (after_use self.old.checker.verdict (declared_at self.old.checker.names 1 x.now))
            (Sized x.now.at size None false)) }
    {
        self.declare(constant, x, true)?;
        self.checker.verdict.sized(x.at, size, None, false);
        self.keep(ty, x, Some(size), true, Items::new(self.checker.alloc))
    }

    // A variable of file scope that is not extern.
    #[tactic(auto, using(c_faults::proofs::AfterUses::after_uses_rules))]
    fn global(
        &mut self,
        constant: bool,
        ty: Ty,
        x: &'a Spot,
        shape: &RawShape,
    ) -> Result<(), NoMemory>
        ensures names { OnOk result (self.new.checker.names
            ≡ (with_global (file_of self.old) constant x.now.name (is_some (shape_length shape.now))).known) }
        ensures globals { OnOk result (self.new.globals ≡ self.old.globals
            ++ (record {
              name = x.now.name;
              ty = ty;
              length = shape_length shape.now;
              outer = false;
              values =
                  shape_values ty shape.now;
            }) ∷ []) }
        ensures funcs { OnOk result (self.new.funcs ≡ self.old.funcs) }
        ensures first { OnOk result (self.new.checker.verdict ≡ after_uses self.old.checker.verdict
            (global_uses (file_of self.old) constant x.now shape.now)) }
    {
        match shape {
            RawShape::Scalar(e) => {
                self.declare(constant, x, false)?;
                let values = self.checker.initial_number(ty, e)?;
                self.keep(ty, x, None, false, values)
            }
            RawShape::Array(length, list) => {
                self.checker.length(length)?;
                let size = c_constants::array_length(length, list)?;
                self.declare(constant, x, true)?;
                self.checker
                    .verdict
                    .sized(x.at, size, expr::count(list), false);
                let values = self.checker.initial_numbers(ty, list)?;
                self.keep(ty, x, Some(size), false, values)
            }
        }
    }

    // A function.
    #[tactic(auto, using(c_faults::proofs::AfterUses::after_uses_rules))]
    fn func(&mut self, func: &'a RawFunc) -> Result<(), NoMemory>
        ensures file { OnOk result (file_of self.new ≡ behind_top (file_of self.old) (RawTop.Func func.now)) }
        ensures globals { OnOk result (self.new.globals ≡ self.old.globals) }
        ensures funcs { OnOk result (self.new.funcs ≡ self.old.funcs ++ func_in_file (file_of self.old) func.now ∷ []) }
        ensures first { OnOk result (self.new.checker.verdict ≡ after_uses self.old.checker.verdict
            (func_uses (file_of self.old) func.now)) }
    {
        let name = func.spot.name.as_slice();
        let again = self.checker.names.is_known_at(FILE_SCOPE, name);
        self.checker.verdict.declared(func.spot.at, again);
        let number = number_of(self.funcs.len())?;
        let entity = function(number, func);
        self.checker.names.declare(name, FILE_SCOPE, entity)?;
        let body = self.checker.function(number, func)?;
        let func = finished(self.checker.alloc, func, body)?;
        self.funcs.push(func)?;
        Ok(())
    }

    // A declaration at file scope.
    fn top(&mut self, top: &'a RawTop) -> Result<(), NoMemory>
        ensures file { OnOk result (file_of self.new ≡ behind_top (file_of self.old) top.now) }
        ensures globals { OnOk result (self.new.globals ≡ self.old.globals ++ top_globals top.now) }
        ensures funcs { OnOk result (self.new.funcs ≡ self.old.funcs ++ top_funcs (file_of self.old) top.now) }
        ensures first { OnOk result (self.new.checker.verdict ≡ after_uses self.old.checker.verdict
            (top_uses (file_of self.old) top.now)) }
    {
        match top {
            RawTop::Outer(constant, ty, x, length) => self.outer(*constant, *ty, x, length),
            RawTop::Global(_, constant, ty, x, shape) => self.global(*constant, *ty, x, shape),
            RawTop::Func(func) => self.func(func),
        }
    }

    /// The declarations at file scope in order.
    pub(crate) fn tops(&mut self, tops: &'a [RawTop]) -> Result<(), NoMemory>
        ensures globals { OnOk result (self.new.globals ≡ self.old.globals ++ globals_of tops.now) }
        ensures funcs { OnOk result (self.new.funcs ≡ self.old.funcs ++ funcs_of (file_of self.old) tops.now) }
        ensures first { OnOk result (self.new.checker.verdict ≡ after_uses self.old.checker.verdict
            (tops_uses (file_of self.old) tops.now)) }
    {
        for top in tops {
            self.top(top)?;
        }
        Ok(())
    }
}

// Lets the functions be known in the whole unit.
fn know<'a>(names: &mut Names<'a>, tops: &'a [RawTop]) -> Result<(), NoMemory>
    ensures { OnOk result (names.new ≡ names.old ++ known_funcs 0 tops.now) }
{
    let mut number = 0;
    for top in tops {
        number = know_top(names, number, top)?;
    }
    Ok(())
}

// Lets a function be known in the whole unit, and answers the number of the next.
fn know_top<'a>(names: &mut Names<'a>, number: u32, top: &'a RawTop) -> Result<u32, NoMemory>
    ensures names { OnOk result (names.new ≡ names.old ++ known_funcs number (top.now ∷ [])) }
    ensures next { IfOk result (λ n. n ≡ number + func_count top.now) }
{
    match top {
        RawTop::Outer(_, _, _, _) => Ok(number),
        RawTop::Global(_, _, _, _, _) => Ok(number),
        RawTop::Func(func) => {
            let name = func.spot.name.as_slice();
            names.declare(name, WHOLE_UNIT, function(number, func))?;
            match number.checked_add(1) {
                Some(next) => Ok(next),
                None => Err(NoMemory),
            }
        }
    }
}

// What a function's name stands for.
fn function(number: u32, func: &RawFunc) -> Entity
    ensures { entity_view result ≡ Function number (length func.now.params) func.now.result }
{
    Entity::Function {
        number,
        params: func.params.len(),
        result: func.result,
    }
}

// The length of an extern variable, if it is an array.
fn outer_length(length: &Option<RawExpr>) -> Option<u32>
    ensures { result ≡ outer_length length.now }
{
    match length {
        None => None,
        Some(e) => Some(c_constants::written_length(e)),
    }
}

// A function whose body has been gone through.
fn finished(alloc: Global, func: &RawFunc, body: Body) -> Result<Func, NoMemory>
    ensures { IfOk result (λ f. f
        ≡ (record {
          name = func.now.spot.name;
          result = func.now.result;
          params = length func.now.params;
          locals =
              body.locals;
          body = body.stmts;
        })) }
{
    let params = number_of(func.params.len())?;
    let Body { locals, stmts } = body;
    Ok(Func {
        name: Name::from_slice(alloc, func.spot.name.as_slice())?,
        result: func.result,
        params,
        locals,
        body: stmts,
    })
}
