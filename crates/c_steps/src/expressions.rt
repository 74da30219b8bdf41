//! The type and the value of an expression in a store (C11 6.5).

ghost use Rattle.std.specs.Prelude.{◌≡◌, option_copied, option_map};
ghost use Rattle.c_tree.specs.Meaning.Values as values;
ghost use Rattle.c_tree.specs.Meaning.Stores as stores;
ghost use Rattle.c_tree.specs.Meaning.Expressions as spec;

use c_semantics::{bin_ty, common, convert, is_nonzero, of_word, operated, un_ty, unary};
use c_tree::{Expr, Slot, Ty, Value};
use c_ways::{Memory, slot_ty};

/// The number of a scalar.
pub(crate) fn number_in(slot: Option<&Slot>) -> Option<Value>
    ensures { result ≡ stores.number_in (option_copied slot.entry) }
{
    match slot {
        Some(Slot::Number(v)) => Some(*v),
        _ => None,
    }
}

pub(crate) fn index(v: Value) -> Option<u32>
    ensures { result ≡ stores.index v }
{
    match v {
        Value::Int(z) => { if z < 0 { None } else { Some(z as u32) } }
        Value::Unsigned(n) => Some(n),
    }
}

/// An element of an array.
pub(crate) fn number_at(slot: Option<&Slot>, at: u32) -> Option<Value>
    ensures { result ≡ stores.number_at (option_copied slot.entry) at }
{
    match slot {
        Some(Slot::Numbers(_, vs)) => vs.get(at as usize).copied(),
        _ => None,
    }
}

#[tactic(auto, using(c_tree::proofs::Layers::ValLayers::val_layers))]
fn type_of(e: &Expr, s: &Memory) -> Ty
    ensures { result ≡ spec.type_of e.now s.now }
{
    match e {
        Expr::Num(ty, _) => *ty,
        Expr::Name(v) => slot_ty(s.slot(*v)),
        Expr::Elem(v, _) => slot_ty(s.slot(*v)),
        Expr::Un(op, a) => un_ty(*op, type_of(a.get(), s)),
        Expr::Cast(ty, _) => *ty,
        Expr::Bin(op, a, b) => bin_ty(*op, type_of(a.get(), s), type_of(b.get(), s)),
        Expr::Cond(_, a, b) => common(type_of(a.get(), s), type_of(b.get(), s)),
    }
}

/// The value of an expression, or None where it is undefined. No value changes a store, so the right operand of `&&`
/// and `||` is evaluated also where it does not count.
#[tactic(auto, using(c_tree::proofs::Layers::ValLayers::val_layers))]
pub fn value(e: &Expr, s: &Memory) -> Option<Value>
    ensures { result ≡ spec.val e.now s.now }
{
    match e {
        Expr::Num(ty, n) => Some(of_word(*ty, *n)),
        Expr::Name(v) => number_in(s.slot(*v)),
        Expr::Elem(v, i) => {
            let at = index(value(i.get(), s)?)?;
            number_at(s.slot(*v), at)
        }
        Expr::Un(op, a) => unary(*op, value(a.get(), s)?),
        Expr::Cast(ty, a) => Some(convert(*ty, value(a.get(), s)?)),
        Expr::Bin(op, a, b) => operated(*op, value(a.get(), s), value(b.get(), s)),
        Expr::Cond(c, a, b) => {
            let ty = common(type_of(a.get(), s), type_of(b.get(), s));
            if is_nonzero(value(c.get(), s)?) {
                Some(convert(ty, value(a.get(), s)?))
            } else {
                Some(convert(ty, value(b.get(), s)?))
            }
        }
    }
}

/// Whether a condition holds, or None where it is undefined.
pub fn condition(e: &Expr, s: &Memory) -> Option<bool>
    ensures { result ≡ option_map values.is_nonzero (spec.val e.now s.now) }
{
    Some(is_nonzero(value(e, s)?))
}
