//! The weights of expressions.

ghost use Rattle.std.specs.Prelude.{◌≡◌, ◌+◌, ◌*◌};
ghost use Rattle.cond_laws.specs.Weights as spec;
ghost use Rattle.path_weight.specs.Capped.{capped_weight};

use crate::scope::{Scope, length_of};
use c_tree::{BinOp, Expr, UnOp, Var};

fn un_weight(op: UnOp) -> u64
    ensures { result ≡ spec.un_weight op }
{
    match op {
        UnOp::Plus => 0,
        _ => 32,
    }
}

/// The weight of a binary operator.
pub(crate) fn bin_weight(op: BinOp) -> u64
    ensures { result ≡ spec.bin_weight op }
{
    match op {
        BinOp::Mul => 1088,
        BinOp::Div | BinOp::Rem => 2176,
        BinOp::Add | BinOp::Sub => 64,
        BinOp::Shl | BinOp::Shr => 192,
        BinOp::Both | BinOp::Either => 2,
        _ => 32,
    }
}

/// The weight of an element of an array, with an index of this weight.
pub(crate) fn element_weight(scope: Scope, array: Var, index: u64) -> u64
    ensures { result ≡ capped_weight (32 * spec.length_of scope.entry.locals.now scope.entry.globals.now array + index) }
{
    let length = u64::from(length_of(scope, array));
    (32 * length).saturating_add(index)
}

/// The weight of an expression.
#[tactic(auto, using(crate::proofs::WeightLayers::weight_layers))]
pub(crate) fn expr_weight(scope: Scope, e: &Expr) -> u64
    ensures { result ≡ capped_weight (spec.expr_weight scope.entry.locals.now scope.entry.globals.now e.now) }
{
    match e {
        Expr::Num(_, _) => 1,
        Expr::Name(_) => 1,
        Expr::Elem(array, index) => element_weight(scope, *array, expr_weight(scope, index.get())),
        Expr::Un(op, operand) => un_weight(*op).saturating_add(expr_weight(scope, operand.get())),
        Expr::Cast(_, operand) => expr_weight(scope, operand.get()),
        Expr::Bin(op, left, right) => bin_weight(*op)
            .saturating_add(expr_weight(scope, left.get()))
            .saturating_add(expr_weight(scope, right.get())),
        Expr::Cond(test, yes, no) => expr_weight(scope, test.get())
            .saturating_add(32)
            .saturating_add(expr_weight(scope, yes.get()))
            .saturating_add(expr_weight(scope, no.get())),
    }
}

/// The weight of an expression, if there is one.
pub(crate) fn optional_weight(scope: Scope, e: &Option<Expr>) -> u64
    ensures { result ≡ capped_weight (spec.optional_weight scope.entry.locals.now scope.entry.globals.now e.now) }
{
    match e {
        None => 0,
        Some(e) => expr_weight(scope, e),
    }
}

/// The weight of a list of expressions.
pub(crate) fn list_weight(scope: Scope, list: &[Expr]) -> u64
    ensures { result ≡ capped_weight (spec.list_weight scope.entry.locals.now scope.entry.globals.now list.now) }
{
    let mut sum: u64 = 0;
    for e in list {
        sum = sum.saturating_add(expr_weight(scope, e));
    }
    sum
}
