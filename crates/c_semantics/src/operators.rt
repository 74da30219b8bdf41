//! The operators on values (C11 6.5.3.3, 6.5.5 to 6.5.14). None stands for a result that is undefined.

ghost use Rattle.std.specs.Prelude.{◌≡◌, ◌<◌, ℤ, SomeIff, FitsSigned};
ghost use Rattle.std.specs.Int.{w32};
ghost use Rattle.c_tree.specs.Meaning.Operators as spec;

use crate::values::{common, is_nonzero, of_word, truth, ty_of, word, zero_of};
use c_tree::{BinOp, UnOp, Value};

// An `int`, where the number is one.
fn int(fit: Option<i32>) -> Option<Value>
    ensures { (z : ℤ) → SomeIff fit (FitsSigned w32 z) z → result ≡ spec.int z }
{
    match fit {
        Some(z) => Some(Value::Int(z)),
        None => None,
    }
}

fn int_quotient(x: i32, y: i32) -> Option<Value>
    ensures { result ≡ spec.int_quotient x y }
{
    if y == 0 { None } else { int(x.checked_div(y)) }
}

fn sum(a: Value, b: Value) -> Option<Value>
    ensures { result ≡ spec.binary BinOp.Add a b }
{
    if let (Value::Int(x), Value::Int(y)) = (a, b) {
        int(x.checked_add(y))
    } else {
        Some(Value::Unsigned(word(a).wrapping_add(word(b))))
    }
}

fn difference(a: Value, b: Value) -> Option<Value>
    ensures { result ≡ spec.binary BinOp.Sub a b }
{
    if let (Value::Int(x), Value::Int(y)) = (a, b) {
        int(x.checked_sub(y))
    } else {
        Some(Value::Unsigned(word(a).wrapping_sub(word(b))))
    }
}

fn product(a: Value, b: Value) -> Option<Value>
    ensures { result ≡ spec.binary BinOp.Mul a b }
{
    if let (Value::Int(x), Value::Int(y)) = (a, b) {
        int(x.checked_mul(y))
    } else {
        Some(Value::Unsigned(word(a).wrapping_mul(word(b))))
    }
}

fn quotient(a: Value, b: Value) -> Option<Value>
    ensures { result ≡ spec.binary BinOp.Div a b }
{
    if let (Value::Int(x), Value::Int(y)) = (a, b) {
        int_quotient(x, y)
    } else {
        let n = word(b);
        if n == 0 {
            None
        } else {
            Some(Value::Unsigned(word(a) / n))
        }
    }
}

fn less(a: Value, b: Value) -> Option<Value>
    ensures { result ≡ spec.binary BinOp.Lt a b }
{
    if let (Value::Int(x), Value::Int(y)) = (a, b) {
        Some(truth(x < y))
    } else {
        Some(truth(word(a) < word(b)))
    }
}

fn equal(a: Value, b: Value) -> Option<Value>
    ensures { result ≡ spec.binary BinOp.Eq a b }
{
    if let (Value::Int(x), Value::Int(y)) = (a, b) {
        Some(truth(x == y))
    } else {
        Some(truth(word(a) == word(b)))
    }
}

fn int_remainder(x: i32, y: i32) -> Option<Value>
    ensures { result ≡ spec.int_remainder x y }
{
    if y == 0 {
        None
    } else {
        int_quotient(x, y)?;
        Some(Value::Int(x.checked_rem(y)?))
    }
}

fn remainder(a: Value, b: Value) -> Option<Value>
    ensures { result ≡ spec.binary BinOp.Rem a b }
{
    if let (Value::Int(x), Value::Int(y)) = (a, b) {
        int_remainder(x, y)
    } else {
        let n = word(b);
        if n == 0 {
            None
        } else {
            Some(Value::Unsigned(word(a) % n))
        }
    }
}

fn greater(a: Value, b: Value) -> Option<Value>
    ensures { result ≡ spec.binary BinOp.Gt a b }
{
    if let (Value::Int(x), Value::Int(y)) = (a, b) {
        Some(truth(x > y))
    } else {
        Some(truth(word(a) > word(b)))
    }
}

fn at_most(a: Value, b: Value) -> Option<Value>
    ensures { result ≡ spec.binary BinOp.Le a b }
{
    if let (Value::Int(x), Value::Int(y)) = (a, b) {
        Some(truth(x <= y))
    } else {
        Some(truth(word(a) <= word(b)))
    }
}

fn at_least(a: Value, b: Value) -> Option<Value>
    ensures { result ≡ spec.binary BinOp.Ge a b }
{
    if let (Value::Int(x), Value::Int(y)) = (a, b) {
        Some(truth(x >= y))
    } else {
        Some(truth(word(a) >= word(b)))
    }
}

fn unequal(a: Value, b: Value) -> Option<Value>
    ensures { result ≡ spec.binary BinOp.Ne a b }
{
    if let (Value::Int(x), Value::Int(y)) = (a, b) {
        Some(truth(x != y))
    } else {
        Some(truth(word(a) != word(b)))
    }
}

fn bit_and(a: Value, b: Value) -> Option<Value>
    ensures { result ≡ spec.binary BinOp.And a b }
{
    Some(of_word(common(ty_of(a), ty_of(b)), word(a) & word(b)))
}

fn bit_or(a: Value, b: Value) -> Option<Value>
    ensures { result ≡ spec.binary BinOp.Or a b }
{
    Some(of_word(common(ty_of(a), ty_of(b)), word(a) | word(b)))
}

fn bit_xor(a: Value, b: Value) -> Option<Value>
    ensures { result ≡ spec.binary BinOp.Xor a b }
{
    Some(of_word(common(ty_of(a), ty_of(b)), word(a) ^ word(b)))
}

// The count of a shift, where it is 0 to 31.
fn count(v: Value) -> Option<u32>
    ensures { result ≡ spec.shift_count v }
{
    let n = match v {
        Value::Int(z) => {
            if z < 0 {
                return None;
            }
            z as u32
        }
        Value::Unsigned(n) => n,
    };
    if n < 32 { Some(n) } else { None }
}

fn shifted_right(a: Value, k: u32) -> Option<Value>
    requires { k < 32 }
    ensures { result ≡ spec.shifted_right a k }
{
    match a {
        Value::Int(z) => Some(Value::Int(z >> k)),
        Value::Unsigned(n) => Some(Value::Unsigned(n >> k)),
    }
}

fn shifted_left(a: Value, k: u32) -> Option<Value>
    requires { k < 32 }
    ensures { result ≡ spec.shifted_left a k }
{
    match a {
        Value::Int(z) => {
            if z < 0 {
                return None;
            }
            let product = (z as u64) << k;
            if product < 2147483648 {
                Some(Value::Int(product as i32))
            } else {
                None
            }
        }
        Value::Unsigned(n) => Some(Value::Unsigned(n.wrapping_shl(k))),
    }
}

fn shift_left(a: Value, b: Value) -> Option<Value>
    ensures { result ≡ spec.binary BinOp.Shl a b }
{
    let k = count(b)?;
    shifted_left(a, k)
}

fn shift_right(a: Value, b: Value) -> Option<Value>
    ensures { result ≡ spec.binary BinOp.Shr a b }
{
    let k = count(b)?;
    shifted_right(a, k)
}

/// A binary operator on two values (C11 6.5.5 to 6.5.12). None where the result is undefined: it leaves the range of
/// `int`, a divisor is 0, or a shift is none of 6.5.7; and for `&&` and `||`, which may go by one operand alone
/// (`operated`).
pub fn binary(op: BinOp, a: Value, b: Value) -> Option<Value>
    ensures { result ≡ spec.binary op a b }
{
    match op {
        BinOp::Mul => product(a, b),
        BinOp::Div => quotient(a, b),
        BinOp::Rem => remainder(a, b),
        BinOp::Add => sum(a, b),
        BinOp::Sub => difference(a, b),
        BinOp::Shl => shift_left(a, b),
        BinOp::Shr => shift_right(a, b),
        BinOp::Lt => less(a, b),
        BinOp::Gt => greater(a, b),
        BinOp::Le => at_most(a, b),
        BinOp::Ge => at_least(a, b),
        BinOp::Eq => equal(a, b),
        BinOp::Ne => unequal(a, b),
        BinOp::And => bit_and(a, b),
        BinOp::Xor => bit_xor(a, b),
        BinOp::Or => bit_or(a, b),
        BinOp::Both | BinOp::Either => None,
    }
}

/// A unary operator on a value (C11 6.5.3.3). None where the result is undefined: it leaves the range of `int`.
pub fn unary(op: UnOp, a: Value) -> Option<Value>
    ensures { result ≡ spec.unary op a }
{
    match op {
        UnOp::Plus => Some(a),
        UnOp::Minus => difference(zero_of(ty_of(a)), a),
        UnOp::Flip => Some(of_word(ty_of(a), u32::MAX - word(a))),
        UnOp::Not => Some(truth(!is_nonzero(a))),
    }
}

// `&&`: the right operand counts only where the left one is not 0.
fn both(a: Option<Value>, b: Option<Value>) -> Option<Value>
    ensures { result ≡ spec.both a b }
{
    if is_nonzero(a?) {
        Some(truth(is_nonzero(b?)))
    } else {
        Some(truth(false))
    }
}

// `||`: the right operand counts only where the left one is 0.
fn either(a: Option<Value>, b: Option<Value>) -> Option<Value>
    ensures { result ≡ spec.either a b }
{
    if is_nonzero(a?) {
        Some(truth(true))
    } else {
        Some(truth(is_nonzero(b?)))
    }
}

/// A binary operator on operands of which each may be undefined (C11 6.5.5 to 6.5.14). None where an operand that
/// counts is undefined or the result is: of `&&` and `||` the right operand counts only where the left one does not
/// decide.
pub fn operated(op: BinOp, a: Option<Value>, b: Option<Value>) -> Option<Value>
    ensures { result ≡ spec.operation_value op a b }
{
    match op {
        BinOp::Both => both(a, b),
        BinOp::Either => either(a, b),
        _ => {
            let x = a?;
            let y = b?;
            binary(op, x, y)
        }
    }
}
