//! Copies of trees, programs and costs. A copy equals what it was made from; it wants memory, and has no other refusal.

ghost use Rattle.std.specs.Prelude.{◌≡◌, IfOk};

use crate::name::Name;
use crate::no_memory::NoMemory;
use crate::program::{Costs, Func, Global as Outside, Local, Program};
use crate::tree::{Expr, Place, Stmt};
use sqlite_items::{Boxed, Items};
use std::alloc::Global;

impl Program {
    /// An equal program. `NoMemory` is want of memory.
    pub fn copy(&self, alloc: Global) -> Result<Program, NoMemory>
        ensures { IfOk result (λ p. p ≡ self.now) }
    {
        let globals = copy_globals(alloc, self.globals.as_slice())?;
        let funcs = copy_funcs(alloc, self.funcs.as_slice())?;
        Ok(Program {
            globals,
            funcs,
            entry: self.entry,
        })
    }
}

impl Costs {
    /// An equal table. `NoMemory` is want of memory.
    pub fn copy(&self, alloc: Global) -> Result<Costs, NoMemory>
        ensures { IfOk result (λ t. t ≡ self.now) }
    {
        let mut by_func = Items::new(alloc);
        for row in self.by_func.as_slice() {
            by_func.push(Items::from_slice(alloc, row.as_slice())?)?;
        }
        Ok(Costs { by_func })
    }
}

impl Expr {
    // An equal expression.
    fn copy(&self, alloc: Global) -> Result<Expr, NoMemory>
        ensures { IfOk result (λ e. e ≡ self.now) }
    {
        match self {
            Expr::Num(ty, n) => Ok(Expr::Num(*ty, *n)),
            Expr::Name(var) => Ok(Expr::Name(*var)),
            Expr::Elem(var, i) => Ok(Expr::Elem(*var, Boxed::new(alloc, i.get().copy(alloc)?)?)),
            Expr::Un(op, a) => Ok(Expr::Un(*op, Boxed::new(alloc, a.get().copy(alloc)?)?)),
            Expr::Cast(ty, a) => Ok(Expr::Cast(*ty, Boxed::new(alloc, a.get().copy(alloc)?)?)),
            Expr::Bin(op, a, b) => {
                let a = Boxed::new(alloc, a.get().copy(alloc)?)?;
                let b = Boxed::new(alloc, b.get().copy(alloc)?)?;
                Ok(Expr::Bin(*op, a, b))
            }
            Expr::Cond(c, a, b) => {
                let c = Boxed::new(alloc, c.get().copy(alloc)?)?;
                let a = Boxed::new(alloc, a.get().copy(alloc)?)?;
                let b = Boxed::new(alloc, b.get().copy(alloc)?)?;
                Ok(Expr::Cond(c, a, b))
            }
        }
    }
}

fn copy_place(alloc: Global, place: &Place) -> Result<Place, NoMemory>
    ensures { IfOk result (λ p. p ≡ place.now) }
{
    match place {
        Place::Scalar(var) => Ok(Place::Scalar(*var)),
        Place::Elem(var, i) => Ok(Place::Elem(*var, i.copy(alloc)?)),
    }
}

fn copy_exprs(alloc: Global, exprs: &[Expr]) -> Result<Items<Expr>, NoMemory>
    ensures { IfOk result (λ es. es ≡ exprs.now) }
{
    let mut copies = Items::new(alloc);
    for e in exprs {
        copies.push(e.copy(alloc)?)?;
    }
    Ok(copies)
}

fn copy_optional(alloc: Global, expr: &Option<Expr>) -> Result<Option<Expr>, NoMemory>
    ensures { IfOk result (λ e. e ≡ expr.now) }
{
    match expr {
        None => Ok(None),
        Some(e) => Ok(Some(e.copy(alloc)?)),
    }
}

#[cycle(copy_stmt)]
fn copy_stmts(alloc: Global, stmts: &[Stmt]) -> Result<Items<Stmt>, NoMemory>
    ensures { IfOk result (λ ss. ss ≡ stmts.now) }
{
    let mut copies = Items::new(alloc);
    for s in stmts {
        copies.push(copy_stmt(alloc, s)?)?;
    }
    Ok(copies)
}

#[cycle(copy_stmt)]
fn copy_held(alloc: Global, stmt: &Option<Boxed<Stmt>>) -> Result<Option<Boxed<Stmt>>, NoMemory>
    ensures { IfOk result (λ s. s ≡ stmt.now) }
{
    match stmt {
        None => Ok(None),
        Some(s) => Ok(Some(Boxed::new(alloc, copy_stmt(alloc, s.get())?)?)),
    }
}

#[cycle(copy_stmt)]
fn copy_stmt(alloc: Global, stmt: &Stmt) -> Result<Stmt, NoMemory>
    ensures { IfOk result (λ s. s ≡ stmt.now) }
{
    match stmt {
        Stmt::Empty => Ok(Stmt::Empty),
        Stmt::Scalar(l, e) => Ok(Stmt::Scalar(*l, copy_optional(alloc, e)?)),
        Stmt::Array(l, es) => Ok(Stmt::Array(*l, copy_exprs(alloc, es.as_slice())?)),
        Stmt::Assign(p, op, e) => Ok(Stmt::Assign(copy_place(alloc, p)?, *op, e.copy(alloc)?)),
        Stmt::Call(t, f, es) => Ok(Stmt::Call(*t, *f, copy_exprs(alloc, es.as_slice())?)),
        Stmt::Break => Ok(Stmt::Break),
        Stmt::Continue => Ok(Stmt::Continue),
        Stmt::Return(e) => Ok(Stmt::Return(copy_optional(alloc, e)?)),
        Stmt::If(e, a, b) => {
            let e = e.copy(alloc)?;
            let a = copy_stmts(alloc, a.as_slice())?;
            let b = copy_stmts(alloc, b.as_slice())?;
            Ok(Stmt::If(e, a, b))
        }
        Stmt::While(k, e, a) => Ok(Stmt::While(
            *k,
            e.copy(alloc)?,
            copy_stmts(alloc, a.as_slice())?,
        )),
        Stmt::Do(k, a, e) => {
            let a = copy_stmts(alloc, a.as_slice())?;
            Ok(Stmt::Do(*k, a, e.copy(alloc)?))
        }
        Stmt::For(k, i, e, j, a) => {
            let i = copy_held(alloc, i)?;
            let e = e.copy(alloc)?;
            let j = copy_held(alloc, j)?;
            Ok(Stmt::For(*k, i, e, j, copy_stmts(alloc, a.as_slice())?))
        }
        Stmt::Group(a) => Ok(Stmt::Group(copy_stmts(alloc, a.as_slice())?)),
    }
}

fn copy_name(alloc: Global, name: &Name) -> Result<Name, NoMemory>
    ensures { IfOk result (λ n. n ≡ name.now) }
{
    Ok(Name::from_slice(alloc, name.as_slice())?)
}

fn copy_local(alloc: Global, local: &Local) -> Result<Local, NoMemory>
    ensures { IfOk result (λ l. l ≡ local.now) }
{
    Ok(Local {
        name: copy_name(alloc, &local.name)?,
        ty: local.ty,
        length: local.length,
    })
}

fn copy_locals(alloc: Global, locals: &[Local]) -> Result<Items<Local>, NoMemory>
    ensures { IfOk result (λ ls. ls ≡ locals.now) }
{
    let mut copies = Items::new(alloc);
    for l in locals {
        copies.push(copy_local(alloc, l)?)?;
    }
    Ok(copies)
}

fn copy_global(alloc: Global, global: &Outside) -> Result<Outside, NoMemory>
    ensures { IfOk result (λ g. g ≡ global.now) }
{
    Ok(Outside {
        name: copy_name(alloc, &global.name)?,
        ty: global.ty,
        length: global.length,
        outer: global.outer,
        values: Items::from_slice(alloc, global.values.as_slice())?,
    })
}

fn copy_globals(alloc: Global, globals: &[Outside]) -> Result<Items<Outside>, NoMemory>
    ensures { IfOk result (λ gs. gs ≡ globals.now) }
{
    let mut copies = Items::new(alloc);
    for g in globals {
        copies.push(copy_global(alloc, g)?)?;
    }
    Ok(copies)
}

fn copy_func(alloc: Global, func: &Func) -> Result<Func, NoMemory>
    ensures { IfOk result (λ f. f ≡ func.now) }
{
    Ok(Func {
        name: copy_name(alloc, &func.name)?,
        result: func.result,
        params: func.params,
        locals: copy_locals(alloc, func.locals.as_slice())?,
        body: copy_stmts(alloc, func.body.as_slice())?,
    })
}

fn copy_funcs(alloc: Global, funcs: &[Func]) -> Result<Items<Func>, NoMemory>
    ensures { IfOk result (λ fs. fs ≡ funcs.now) }
{
    let mut copies = Items::new(alloc);
    for f in funcs {
        copies.push(copy_func(alloc, f)?)?;
    }
    Ok(copies)
}
