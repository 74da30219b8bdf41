//! An expression as a text: every name and number with its place, and a pair of brackets for each part.

use c_tree::{BinOp, RawExpr, Spot, Ty, UnOp};
use std::alloc::AllocError;

/// How a binary operator is written.
pub fn sign(op: BinOp) -> &'static str {
    match op {
        BinOp::Mul => "*",
        BinOp::Div => "/",
        BinOp::Rem => "%",
        BinOp::Add => "+",
        BinOp::Sub => "-",
        BinOp::Shl => "<<",
        BinOp::Shr => ">>",
        BinOp::Lt => "<",
        BinOp::Gt => ">",
        BinOp::Le => "<=",
        BinOp::Ge => ">=",
        BinOp::Eq => "==",
        BinOp::Ne => "!=",
        BinOp::And => "&",
        BinOp::Xor => "^",
        BinOp::Or => "|",
        BinOp::Both => "&&",
        BinOp::Either => "||",
    }
}

fn unary_sign(op: UnOp) -> &'static str {
    match op {
        UnOp::Plus => "+",
        UnOp::Minus => "-",
        UnOp::Flip => "~",
        UnOp::Not => "!",
    }
}

/// How a type is written.
pub fn type_word(ty: Ty) -> &'static str {
    match ty {
        Ty::Int => "int",
        Ty::Unsigned => "unsigned",
    }
}

/// A place.
pub fn place(out: &mut String, at: u32) -> Result<(), AllocError> {
    let digits = format!(in *out.allocator(); "@{at}")?;
    out.push_str(digits.as_str())
}

/// A name and its place.
pub fn spot(out: &mut String, x: &Spot) -> Result<(), AllocError> {
    for byte in x.name.as_slice() {
        out.push(char::from(*byte))?;
    }
    place(out, x.at)
}

fn number(out: &mut String, at: u32, ty: Ty, value: u32) -> Result<(), AllocError> {
    let digits = format!(in *out.allocator(); "{value}")?;
    out.push_str(digits.as_str())?;
    if ty == Ty::Unsigned {
        out.push_str("u")?;
    }
    place(out, at)
}

/// A part in braces, after what it is part of and its place.
#[cycle(expr)]
fn part(out: &mut String, before: &str, at: u32, a: &RawExpr) -> Result<(), AllocError> {
    out.push_str(before)?;
    place(out, at)?;
    out.push_str("{")?;
    expr(out, a)?;
    out.push_str("}")
}

/// A part after what stands before it.
#[cycle(expr)]
fn after(out: &mut String, before: &str, a: &RawExpr) -> Result<(), AllocError> {
    out.push_str(before)?;
    expr(out, a)
}

/// An expression.
#[cycle(expr)]
pub fn expr(out: &mut String, a: &RawExpr) -> Result<(), AllocError> {
    match a {
        RawExpr::Num(at, ty, value) => number(out, *at, *ty, *value),
        RawExpr::Name(x) => spot(out, x),
        RawExpr::Elem(x, i) => {
            spot(out, x)?;
            after(out, "[", i.get())?;
            out.push_str("]")
        }
        RawExpr::Un(at, op, a) => part(out, unary_sign(*op), *at, a.get()),
        RawExpr::Cast(at, ty, a) => part(out, type_word(*ty), *at, a.get()),
        RawExpr::Bin(op, a, b) => {
            after(out, "(", a.get())?;
            after(out, sign(*op), b.get())?;
            out.push_str(")")
        }
        RawExpr::Cond(a, b, c) => {
            after(out, "(", a.get())?;
            after(out, "?", b.get())?;
            after(out, ":", c.get())?;
            out.push_str(")")
        }
        RawExpr::Paren(at, a) => part(out, "paren", *at, a.get()),
    }
}
