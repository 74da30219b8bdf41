//! Operators by their names.

ghost use Rattle.std.specs.Prelude.{◌<◌, ℕ, IfSome};
ghost use Rattle.bv_term.specs.Stores.{FitsOp};

use bv_term::Op;

/// The operator of this name over these terms, or over the word of a `const`, in a store of `len` terms.
pub fn op_of(name: &str, operands: &[u32], len: u32) -> Option<Op>
    ensures { IfSome result (λ op. (inputs : ℕ) → FitsOp inputs len op) }
{
    match operands {
        [word] if name == "const" => Some(Op::Const(*word)),
        [a] if *a < len => unary(name, *a),
        [a, b] if *a < len && *b < len => binary(name, *a, *b),
        [c, a, b] if *c < len && *a < len && *b < len && name == "ite" => Some(Op::Ite(*c, *a, *b)),
        _ => None,
    }
}

fn unary(name: &str, a: u32) -> Option<Op>
    ensures { IfSome result (λ op. (inputs k : ℕ) → a < k → FitsOp inputs k op) }
{
    match name {
        "not" => Some(Op::Not(a)),
        "neg" => Some(Op::Neg(a)),
        _ => None,
    }
}

fn binary(name: &str, a: u32, b: u32) -> Option<Op>
    ensures { IfSome result (λ op. (inputs k : ℕ) → a < k → b < k → FitsOp inputs k op) }
{
    if let Some(op) = arithmetic(name, a, b) {
        return Some(op);
    }
    if let Some(op) = division(name, a, b) {
        return Some(op);
    }
    if let Some(op) = shift(name, a, b) {
        return Some(op);
    }
    if let Some(op) = bitwise(name, a, b) {
        return Some(op);
    }
    relation(name, a, b)
}

fn arithmetic(name: &str, a: u32, b: u32) -> Option<Op>
    ensures { IfSome result (λ op. (inputs k : ℕ) → a < k → b < k → FitsOp inputs k op) }
{
    match name {
        "add" => Some(Op::Add(a, b)),
        "sub" => Some(Op::Sub(a, b)),
        "mul" => Some(Op::Mul(a, b)),
        _ => None,
    }
}

fn division(name: &str, a: u32, b: u32) -> Option<Op>
    ensures { IfSome result (λ op. (inputs k : ℕ) → a < k → b < k → FitsOp inputs k op) }
{
    match name {
        "divu" => Some(Op::DivU(a, b)),
        "remu" => Some(Op::RemU(a, b)),
        "divs" => Some(Op::DivS(a, b)),
        "rems" => Some(Op::RemS(a, b)),
        _ => None,
    }
}

fn shift(name: &str, a: u32, b: u32) -> Option<Op>
    ensures { IfSome result (λ op. (inputs k : ℕ) → a < k → b < k → FitsOp inputs k op) }
{
    match name {
        "shl" => Some(Op::Shl(a, b)),
        "shru" => Some(Op::ShrU(a, b)),
        "shrs" => Some(Op::ShrS(a, b)),
        _ => None,
    }
}

fn bitwise(name: &str, a: u32, b: u32) -> Option<Op>
    ensures { IfSome result (λ op. (inputs k : ℕ) → a < k → b < k → FitsOp inputs k op) }
{
    match name {
        "and" => Some(Op::And(a, b)),
        "or" => Some(Op::Or(a, b)),
        "xor" => Some(Op::Xor(a, b)),
        _ => None,
    }
}

fn relation(name: &str, a: u32, b: u32) -> Option<Op>
    ensures { IfSome result (λ op. (inputs k : ℕ) → a < k → b < k → FitsOp inputs k op) }
{
    match name {
        "eq" => Some(Op::Eq(a, b)),
        "ltu" => Some(Op::LtU(a, b)),
        "lts" => Some(Op::LtS(a, b)),
        _ => None,
    }
}
