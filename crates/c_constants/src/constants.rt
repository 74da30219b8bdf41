//! Constant expressions (C11 6.6) and the lengths of arrays.

ghost use Rattle.std.specs.Prelude.{◌≡◌, IfOk, Some, None, []};
ghost use Rattle.c_tree.specs.Checking.Constants as spec;
ghost use Rattle.c_tree.specs.Meaning.Expressions.{val, type_of, choice_value};

use c_semantics::{bin_ty, common, convert, is_nonzero, of_word, operated, un_ty, unary};
use c_tree::{NoMemory, RawExpr, RawShape, Ty, Value};
use sqlite_items::Items;

/// The place of the first token of an expression.
#[tactic(auto, using(crate::proofs::ConstantLayers::constant_layers))]
pub fn first_token(e: &RawExpr) -> u32
    ensures { result ≡ spec.first_token e.now }
{
    match e {
        RawExpr::Num(at, _, _) => *at,
        RawExpr::Name(x) => x.at,
        RawExpr::Elem(x, _) => x.at,
        RawExpr::Un(at, _, _) => *at,
        RawExpr::Cast(at, _, _) => *at,
        RawExpr::Bin(_, a, _) => first_token(a.get()),
        RawExpr::Cond(c, _, _) => first_token(c.get()),
        RawExpr::Paren(at, _) => *at,
    }
}

#[tactic(auto, using(crate::proofs::ConstantLayers::constant_layers))]
fn has_name(e: &RawExpr) -> bool
    ensures { result ≡ spec.has_name e.now }
{
    match e {
        RawExpr::Num(_, _, _) => false,
        RawExpr::Name(_) => true,
        RawExpr::Elem(_, _) => true,
        RawExpr::Un(_, _, a) => has_name(a.get()),
        RawExpr::Cast(_, _, a) => has_name(a.get()),
        RawExpr::Bin(_, a, b) => has_name(a.get()) || has_name(b.get()),
        RawExpr::Cond(c, a, b) => has_name(c.get()) || has_name(a.get()) || has_name(b.get()),
        RawExpr::Paren(_, a) => has_name(a.get()),
    }
}

// The type of an expression without names; a name counts as an `int`.
#[tactic(auto, using(crate::proofs::ConstantLayers::constant_layers, c_tree::proofs::Layers::ValLayers::val_layers))]
fn type_of(e: &RawExpr) -> Ty
    ensures { result ≡ type_of (spec.expr_of [] e.now) spec.no_store }
{
    match e {
        RawExpr::Num(_, ty, _) => *ty,
        RawExpr::Name(_) => Ty::Int,
        RawExpr::Elem(_, _) => Ty::Int,
        RawExpr::Un(_, op, a) => un_ty(*op, type_of(a.get())),
        RawExpr::Cast(_, ty, _) => *ty,
        RawExpr::Bin(op, a, b) => bin_ty(*op, type_of(a.get()), type_of(b.get())),
        RawExpr::Cond(_, a, b) => common(type_of(a.get()), type_of(b.get())),
        RawExpr::Paren(_, a) => type_of(a.get()),
    }
}

fn chosen(c: Option<Value>, ty: Ty, a: Option<Value>, b: Option<Value>) -> Option<Value>
    ensures { result ≡ choice_value c ty a b }
{
    let v = if is_nonzero(c?) { a? } else { b? };
    Some(convert(ty, v))
}

// The value of an expression without names; a name has none.
#[tactic(auto, using(crate::proofs::ConstantLayers::constant_layers, c_tree::proofs::Layers::ValLayers::val_layers))]
fn value_of(e: &RawExpr) -> Option<Value>
    ensures { result ≡ val (spec.expr_of [] e.now) spec.no_store }
{
    match e {
        RawExpr::Num(_, ty, n) => Some(of_word(*ty, *n)),
        RawExpr::Name(_) => None,
        RawExpr::Elem(_, _) => None,
        RawExpr::Un(_, op, a) => unary(*op, value_of(a.get())?),
        RawExpr::Cast(_, ty, a) => Some(convert(*ty, value_of(a.get())?)),
        RawExpr::Bin(op, a, b) => operated(*op, value_of(a.get()), value_of(b.get())),
        RawExpr::Cond(c, a, b) => {
            let ty = common(type_of(a.get()), type_of(b.get()));
            chosen(value_of(c.get()), ty, value_of(a.get()), value_of(b.get()))
        }
        RawExpr::Paren(_, a) => value_of(a.get()),
    }
}

/// The value of a constant expression: none where a name stands in it or it is undefined.
#[tactic(auto, unfolding(c_tree::specs::Checking::Constants::constant_value))]
pub fn constant(e: &RawExpr) -> Option<Value>
    ensures { result ≡ spec.constant_value e.now }
{
    if has_name(e) { None } else { value_of(e) }
}

/// A constant converted to a type, as a number.
pub fn kept_number(ty: Ty, constant: Option<Value>) -> i64
    ensures { result ≡ spec.kept_number ty constant }
{
    match constant {
        None => 0,
        Some(v) => match convert(ty, v) {
            Value::Int(z) => i64::from(z),
            Value::Unsigned(n) => i64::from(n),
        },
    }
}

fn length_number(constant: Option<Value>) -> u32
    ensures { result ≡ spec.length_number constant }
{
    match constant {
        Some(Value::Int(z)) => { if z < 0 { 0 } else { z as u32 } }
        Some(Value::Unsigned(n)) => n,
        None => 0,
    }
}

/// The length of an array that is written; 0 for what is none.
pub fn written_length(e: &RawExpr) -> u32
    ensures { result ≡ spec.declared_length (Some e.now) None }
{
    length_number(constant(e))
}

/// The length of an array: the one that is written, or that of the list; 0 where neither is there.
pub fn array_length(
    length: &Option<RawExpr>,
    list: &Option<Items<RawExpr>>,
) -> Result<u32, NoMemory>
    ensures { IfOk result (λ n. n ≡ spec.declared_length length.now list.now) }
{
    match length {
        Some(e) => Ok(written_length(e)),
        None => match list {
            Some(list) => match u32::try_from(list.len()) {
                Ok(n) => Ok(n),
                Err(_) => Err(NoMemory),
            },
            None => Ok(0),
        },
    }
}
