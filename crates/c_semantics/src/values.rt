//! Types, conversion and truth of values (C11 6.2.5, 6.3.1.3, 6.3.1.8).

ghost use Rattle.std.specs.Prelude.{◌≡◌};
ghost use Rattle.c_tree.specs.Meaning.Values as spec;

use c_tree::{Ty, Value};

/// The type of a value (C11 6.2.5).
pub fn ty_of(v: Value) -> Ty
    ensures { result ≡ spec.ty_of v }
{
    match v {
        Value::Int(_) => Ty::Int,
        Value::Unsigned(_) => Ty::Unsigned,
    }
}

/// The common type of two operands, by the usual arithmetic conversions (C11 6.3.1.8): `unsigned` if one of them is.
pub fn common(a: Ty, b: Ty) -> Ty
    ensures { result ≡ spec.common a b }
{
    match a {
        Ty::Int => b,
        Ty::Unsigned => Ty::Unsigned,
    }
}

/// The 0 of a type, with which an object is filled that has no number of its own (C11 6.7.9).
pub fn zero_of(ty: Ty) -> Value
    ensures { result ≡ spec.zero_of ty }
{
    match ty {
        Ty::Int => Value::Int(0),
        Ty::Unsigned => Value::Unsigned(0),
    }
}

/// The 32 bits of a value, in two's complement (C11 6.2.6.2).
pub fn word(v: Value) -> u32
    ensures { result ≡ spec.word v }
{
    match v {
        Value::Int(z) => z.cast_unsigned(),
        Value::Unsigned(n) => n,
    }
}

/// The value of a type that has these bits (C11 6.2.6.2).
pub fn of_word(ty: Ty, n: u32) -> Value
    ensures { result ≡ spec.of_word ty n }
{
    match ty {
        Ty::Int => Value::Int(n.cast_signed()),
        Ty::Unsigned => Value::Unsigned(n),
    }
}

/// A value converted to a type (C11 6.3.1.3): modulo 2^32, to `int` too.
pub fn convert(ty: Ty, v: Value) -> Value
    ensures { result ≡ spec.convert ty v }
{
    match ty {
        Ty::Int => match v {
            Value::Int(z) => Value::Int(z),
            Value::Unsigned(n) => Value::Int(n.cast_signed()),
        },
        Ty::Unsigned => Value::Unsigned(word(v)),
    }
}

/// The `int` 1 or 0 that is the result of a relation or of `!`, `&&` and `||` (C11 6.5.3.3, 6.5.8, 6.5.9, 6.5.13,
/// 6.5.14).
pub fn truth(b: bool) -> Value
    ensures { result ≡ spec.truth b }
{
    if b { Value::Int(1) } else { Value::Int(0) }
}

/// Whether a condition holds that has this value: it is not 0 (C11 6.8.4.1, 6.8.5).
pub fn is_nonzero(v: Value) -> bool
    ensures { result ≡ spec.is_nonzero v }
{
    match v {
        Value::Int(z) => z != 0,
        Value::Unsigned(n) => n != 0,
    }
}
