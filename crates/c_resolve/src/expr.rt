//! The names of expressions.

ghost use Rattle.std.specs.Prelude.{◌≡◌, IfOk, OnOk, [], option_map, unwrap_or, length};
ghost use Rattle.c_tree.specs.Checking.Constants as spec;
ghost use Rattle.std.specs.Option.{option_map_or};
ghost use Rattle.c_tree.specs.Checking.Naming.{optional_expr, kept_numbers, shape_values};
ghost use Rattle.c_tree.specs.Checking.Uses.{
  Read,
  expr_uses,
  exprs_uses,
  optional_uses,
  constant_uses,
  length_uses,
  list_uses,
  constants_uses,
};
ghost use Rattle.c_tree.specs.Checking.Scopes as scope;
ghost use Rattle.c_tree.specs.declared.unit.RawExpr.TheVariants as raw;
ghost use Rattle.c_names.specs.Tables.{entity_view};
ghost use Rattle.c_faults.specs.Verdicts.{after_use, after_uses};

use c_faults::Verdict;
use c_names::{Entity, Names};
use c_tree::{BinOp, Expr, NoMemory, RawExpr, RawShape, Spot, Ty, Value};
use sqlite_items::{Boxed, Items};
use std::alloc::Global;

// What a name that is read stands for, and whether an index follows it.
fn read(names: &Names, verdict: &mut Verdict, x: &Spot, indexed: bool) -> Option<Entity>
    ensures entity { option_map entity_view result ≡ scope.entity_of names.now x.now.name }
    ensures first { verdict.new ≡ after_use verdict.old (Read x.now.at (scope.entity_of names.now x.now.name) indexed) }
{
    let entity = names.entity(x.name.as_slice());
    verdict.read(x.at, entity, indexed);
    entity
}

/// An expression with its names replaced.
#[cycle(exprs)]
#[tactic(auto, using(c_constants::proofs::ConstantLayers::expr_layers, crate::proofs::UseLayers::expr_use_layers, c_faults::proofs::AfterUses::after_uses_rules))]
pub(crate) fn expr(
    alloc: Global,
    names: &Names,
    verdict: &mut Verdict,
    e: &RawExpr,
) -> Result<Expr, NoMemory>
    ensures tree { IfOk result (λ x. x ≡ spec.expr_of names.now e.now) }
    ensures first { OnOk result (verdict.new ≡ after_uses verdict.old (expr_uses names.now e.now)) }
{
    match e {
        RawExpr::Num(_, ty, n) => Ok(Expr::Num(*ty, *n)),
        RawExpr::Name(x) => {
            let entity = read(names, verdict, x, false);
            Ok(Expr::Name(Entity::variable(entity)))
        }
        RawExpr::Elem(x, i) => element(alloc, names, verdict, x, i),
        RawExpr::Un(_, op, a) => Ok(Expr::Un(*op, boxed(alloc, names, verdict, a)?)),
        RawExpr::Cast(_, ty, a) => Ok(Expr::Cast(*ty, boxed(alloc, names, verdict, a)?)),
        RawExpr::Bin(op, a, b) => binary(alloc, names, verdict, *op, a, b),
        RawExpr::Cond(c, a, b) => choice(alloc, names, verdict, c, a, b),
        RawExpr::Paren(_, a) => expr(alloc, names, verdict, a.get()),
    }
}

// An expression inside another.
#[cycle(exprs)]
fn boxed(
    alloc: Global,
    names: &Names,
    verdict: &mut Verdict,
    e: &Boxed<RawExpr>,
) -> Result<Boxed<Expr>, NoMemory>
    ensures tree { IfOk result (λ x. x ≡ spec.expr_of names.now e.now) }
    ensures first { OnOk result (verdict.new ≡ after_uses verdict.old (expr_uses names.now e.now)) }
{
    let e = expr(alloc, names, verdict, e.get())?;
    Ok(Boxed::new(alloc, e)?)
}

// An element of an array.
#[cycle(exprs)]
#[tactic(auto, using(c_constants::proofs::ConstantLayers::expr_layers, crate::proofs::UseLayers::expr_use_layers, c_faults::proofs::AfterUses::after_uses_rules))]
fn element(
    alloc: Global,
    names: &Names,
    verdict: &mut Verdict,
    x: &Spot,
    i: &Boxed<RawExpr>,
) -> Result<Expr, NoMemory>
    ensures tree { IfOk result (λ t. t ≡ spec.expr_of names.now (raw.Elem x.now i.now)) }
    ensures first { OnOk result (verdict.new ≡ after_uses verdict.old (expr_uses names.now (raw.Elem x.now i.now))) }
{
    let entity = read(names, verdict, x, true);
    let i = boxed(alloc, names, verdict, i)?;
    Ok(Expr::Elem(Entity::variable(entity), i))
}

// An operator with two operands.
#[cycle(exprs)]
#[tactic(auto, using(c_constants::proofs::ConstantLayers::expr_layers, crate::proofs::UseLayers::expr_use_layers, c_faults::proofs::AfterUses::after_uses_rules))]
fn binary(
    alloc: Global,
    names: &Names,
    verdict: &mut Verdict,
    op: BinOp,
    a: &Boxed<RawExpr>,
    b: &Boxed<RawExpr>,
) -> Result<Expr, NoMemory>
    ensures tree { IfOk result (λ x. x ≡ spec.expr_of names.now (raw.Bin op a.now b.now)) }
    ensures first { OnOk result (verdict.new ≡ after_uses verdict.old (expr_uses names.now (raw.Bin op a.now b.now))) }
{
    let a = boxed(alloc, names, verdict, a)?;
    let b = boxed(alloc, names, verdict, b)?;
    Ok(Expr::Bin(op, a, b))
}

// A choice by a condition.
#[cycle(exprs)]
#[tactic(auto, using(c_constants::proofs::ConstantLayers::expr_layers, crate::proofs::UseLayers::expr_use_layers, c_faults::proofs::AfterUses::after_uses_rules))]
fn choice(
    alloc: Global,
    names: &Names,
    verdict: &mut Verdict,
    c: &Boxed<RawExpr>,
    a: &Boxed<RawExpr>,
    b: &Boxed<RawExpr>,
) -> Result<Expr, NoMemory>
    ensures tree { IfOk result (λ x. x ≡ spec.expr_of names.now (raw.Cond c.now a.now b.now)) }
    ensures first { OnOk result (verdict.new
        ≡ after_uses verdict.old (expr_uses names.now (raw.Cond c.now a.now b.now))) }
{
    let c = boxed(alloc, names, verdict, c)?;
    let a = boxed(alloc, names, verdict, a)?;
    let b = boxed(alloc, names, verdict, b)?;
    Ok(Expr::Cond(c, a, b))
}

/// A list of expressions.
#[tactic(auto, using(c_faults::proofs::AfterUses::after_uses_rules))]
pub(crate) fn exprs(
    alloc: Global,
    names: &Names,
    verdict: &mut Verdict,
    list: &[RawExpr],
) -> Result<Items<Expr>, NoMemory>
    ensures tree { IfOk result (λ xs. xs ≡ spec.exprs_of names.now list.now) }
    ensures first { OnOk result (verdict.new ≡ after_uses verdict.old (exprs_uses names.now list.now)) }
{
    let mut items = Items::new(alloc);
    for e in list {
        items.push(expr(alloc, names, verdict, e)?)?;
    }
    Ok(items)
}

/// An expression, if there is one.
#[tactic(auto, using(c_faults::proofs::AfterUses::after_uses_rules))]
pub(crate) fn optional(
    alloc: Global,
    names: &Names,
    verdict: &mut Verdict,
    e: &Option<RawExpr>,
) -> Result<Option<Expr>, NoMemory>
    ensures tree { IfOk result (λ x. x ≡ optional_expr names.now e.now) }
    ensures first { OnOk result (verdict.new ≡ after_uses verdict.old (optional_uses names.now e.now)) }
{
    match e {
        None => Ok(None),
        Some(e) => Ok(Some(expr(alloc, names, verdict, e)?)),
    }
}

/// The value of an expression that is to be a constant.
#[tactic(auto, using(c_faults::proofs::AfterUses::after_uses_rules))]
pub(crate) fn constant(
    alloc: Global,
    names: &Names,
    verdict: &mut Verdict,
    e: &RawExpr,
) -> Result<Option<Value>, NoMemory>
    ensures value { IfOk result (λ v. v ≡ spec.constant_value e.now) }
    ensures first { OnOk result (verdict.new ≡ after_uses verdict.old (constant_uses names.now e.now)) }
{
    let _ = expr(alloc, names, verdict, e)?;
    let value = c_constants::constant(e);
    verdict.constant(c_constants::first_token(e), value);
    Ok(value)
}

/// The length of an array, if it is written.
#[tactic(auto, using(c_faults::proofs::AfterUses::after_uses_rules))]
pub(crate) fn length(
    alloc: Global,
    names: &Names,
    verdict: &mut Verdict,
    e: &Option<RawExpr>,
) -> Result<(), NoMemory>
    ensures { OnOk result (verdict.new ≡ after_uses verdict.old (length_uses names.now e.now)) }
{
    if let Some(e) = e {
        let _ = constant(alloc, names, verdict, e)?;
    }
    Ok(())
}

/// The expressions of a list, if there is one; else none.
#[tactic(auto, using(c_faults::proofs::AfterUses::after_uses_rules))]
pub(crate) fn list(
    alloc: Global,
    names: &Names,
    verdict: &mut Verdict,
    list: &Option<Items<RawExpr>>,
) -> Result<Items<Expr>, NoMemory>
    ensures tree { IfOk result (λ xs. xs ≡ spec.exprs_of names.now (unwrap_or list.now [])) }
    ensures first { OnOk result (verdict.new ≡ after_uses verdict.old (list_uses names.now list.now)) }
{
    match list {
        None => Ok(Items::new(alloc)),
        Some(list) => exprs(alloc, names, verdict, list.as_slice()),
    }
}

/// How long a list is, if there is one.
pub(crate) fn count(list: &Option<Items<RawExpr>>) -> Option<usize>
    ensures { result ≡ option_map length list.now }
{
    match list {
        None => None,
        Some(list) => Some(list.len()),
    }
}

/// The numbers of a list of constants, converted to a type.
#[tactic(auto, using(c_faults::proofs::AfterUses::after_uses_rules))]
fn constants(
    alloc: Global,
    names: &Names,
    verdict: &mut Verdict,
    ty: Ty,
    list: &[RawExpr],
) -> Result<Items<i64>, NoMemory>
    ensures numbers { IfOk result (λ zs. zs ≡ kept_numbers ty list.now) }
    ensures first { OnOk result (verdict.new ≡ after_uses verdict.old (constants_uses names.now list.now)) }
{
    let mut numbers = Items::new(alloc);
    for e in list {
        let value = constant(alloc, names, verdict, e)?;
        numbers.push(c_constants::kept_number(ty, value))?;
    }
    Ok(numbers)
}

/// The number of a scalar's initialiser, converted to a type, if there is one.
#[tactic(auto, using(c_faults::proofs::AfterUses::after_uses_rules))]
pub(crate) fn initial_number(
    alloc: Global,
    names: &Names,
    verdict: &mut Verdict,
    ty: Ty,
    e: &Option<RawExpr>,
) -> Result<Items<i64>, NoMemory>
    ensures numbers { IfOk result (λ zs. zs ≡ shape_values ty (RawShape.Scalar e.now)) }
    ensures first { OnOk result (verdict.new ≡ after_uses verdict.old (option_map_or (constant_uses names.now) e.now
        [])) }
{
    let mut numbers = Items::new(alloc);
    if let Some(e) = e {
        let value = constant(alloc, names, verdict, e)?;
        numbers.push(c_constants::kept_number(ty, value))?;
    }
    Ok(numbers)
}

/// The numbers of an array's list, converted to a type, if there is one.
#[tactic(auto, using(c_faults::proofs::AfterUses::after_uses_rules))]
pub(crate) fn initial_numbers(
    alloc: Global,
    names: &Names,
    verdict: &mut Verdict,
    ty: Ty,
    list: &Option<Items<RawExpr>>,
) -> Result<Items<i64>, NoMemory>
    ensures numbers { IfOk result (λ zs. zs ≡ kept_numbers ty (unwrap_or list.now [])) }
    ensures first { OnOk result (verdict.new
        ≡ after_uses verdict.old (constants_uses names.now (unwrap_or list.now []))) }
{
    match list {
        None => Ok(Items::new(alloc)),
        Some(list) => constants(alloc, names, verdict, ty, list.as_slice()),
    }
}
