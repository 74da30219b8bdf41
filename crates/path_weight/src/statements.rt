//! The weights of simple statements.

ghost use Rattle.std.specs.Prelude.{◌≡◌};
ghost use Rattle.cond_laws.specs.Weights as spec;
ghost use Rattle.path_weight.specs.Capped.{capped_weight, source_weight as source_of};

use crate::expressions::{bin_weight, element_weight, expr_weight, list_weight, optional_weight};
use crate::scope::Scope;
use c_tree::{BinOp, Expr, Place, Stmt};

fn place_weight(scope: Scope, place: &Place) -> u64
    ensures { result ≡ capped_weight (spec.place_weight scope.entry.locals.now scope.entry.globals.now place.now) }
{
    match place {
        Place::Scalar(_) => 0,
        Place::Elem(array, index) => element_weight(scope, *array, expr_weight(scope, index)),
    }
}

// A place as an operand.
fn read_weight(scope: Scope, place: &Place) -> u64
    ensures { result ≡ capped_weight (spec.read_weight scope.entry.locals.now scope.entry.globals.now place.now) }
{
    match place {
        Place::Scalar(_) => 1,
        Place::Elem(_, _) => place_weight(scope, place),
    }
}

// What is assigned: of `p op= e` that of `p op e`.
fn source_weight(scope: Scope, place: &Place, op: Option<BinOp>, e: &Expr) -> u64
    ensures { result ≡ capped_weight (source_of scope.entry.locals.now scope.entry.globals.now place.now op e.now) }
{
    let value = expr_weight(scope, e);
    match op {
        None => value,
        Some(op) => bin_weight(op)
            .saturating_add(read_weight(scope, place))
            .saturating_add(value),
    }
}

#[tactic(auto, using(crate::proofs::WeightLayers::weight_layers))]
fn simple_weight(scope: Scope, stmt: &Stmt) -> u64
    ensures { result ≡ capped_weight (spec.simple_weight scope.entry.locals.now scope.entry.globals.now stmt.now) }
{
    match stmt {
        Stmt::Scalar(_, value) => optional_weight(scope, value),
        Stmt::Array(_, values) => list_weight(scope, values.as_slice()),
        Stmt::Assign(place, op, e) => {
            place_weight(scope, place).saturating_add(source_weight(scope, place, *op, e))
        }
        _ => 0,
    }
}

/// The weight of a list of simple statements.
pub(crate) fn run_weight(scope: Scope, list: &[Stmt]) -> u64
    ensures { result ≡ capped_weight (spec.all_weights scope.entry.locals.now scope.entry.globals.now list.now) }
{
    let mut sum: u64 = 0;
    for stmt in list {
        sum = sum.saturating_add(simple_weight(scope, stmt));
    }
    sum
}
