//! Statements and declarations as texts: every name with its place, `const` and `static` where they are kept, the bound
//! of a loop before it, and braces round each list.

use crate::shown_expr::{expr, place, sign, spot, type_word};
use c_tree::{
    RawBound, RawExpr, RawFunc, RawPlace, RawShape, RawStmt, RawTarget, RawTop, Spot, Ty, Unit,
};
use sqlite_items::Boxed;
use std::alloc::{AllocError, Global};

fn ty(out: &mut String, to: Ty) -> Result<(), AllocError> {
    out.push_str(type_word(to))?;
    out.push_str(" ")
}

fn word(out: &mut String, there: bool, word: &str) -> Result<(), AllocError> {
    if there { out.push_str(word) } else { Ok(()) }
}

fn optional(out: &mut String, before: &str, a: &Option<RawExpr>) -> Result<(), AllocError> {
    match a {
        None => Ok(()),
        Some(a) => {
            out.push_str(before)?;
            expr(out, a)
        }
    }
}

fn list(out: &mut String, list: &[RawExpr]) -> Result<(), AllocError> {
    for a in list {
        expr(out, a)?;
        out.push_str(",")?;
    }
    Ok(())
}

fn shape(out: &mut String, form: &RawShape) -> Result<(), AllocError> {
    match form {
        RawShape::Scalar(a) => optional(out, "=", a),
        RawShape::Array(size, values) => {
            out.push_str("[")?;
            optional(out, "", size)?;
            out.push_str("]")?;
            match values {
                None => Ok(()),
                Some(values) => {
                    out.push_str("={")?;
                    list(out, values.as_slice())?;
                    out.push_str("}")
                }
            }
        }
    }
}

fn declared(
    out: &mut String,
    constant: bool,
    to: Ty,
    x: &Spot,
    form: &RawShape,
) -> Result<(), AllocError> {
    word(out, constant, "const ")?;
    ty(out, to)?;
    spot(out, x)?;
    shape(out, form)
}

fn target(out: &mut String, to: &RawTarget) -> Result<(), AllocError> {
    match to {
        RawTarget::Nothing => Ok(()),
        RawTarget::Assign(x) => {
            spot(out, x)?;
            out.push_str("=")
        }
        RawTarget::Declare(constant, to, x) => {
            word(out, *constant, "const ")?;
            ty(out, *to)?;
            spot(out, x)?;
            out.push_str("=")
        }
    }
}

fn assigned(out: &mut String, p: &RawPlace) -> Result<(), AllocError> {
    match p {
        RawPlace::Scalar(x) => spot(out, x),
        RawPlace::Elem(x, a) => {
            spot(out, x)?;
            out.push_str("[")?;
            expr(out, a)?;
            out.push_str("]")
        }
    }
}

/// A statement without a list, and without its semicolon.
fn simple(out: &mut String, a: &RawStmt) -> Result<(), AllocError> {
    match a {
        RawStmt::Declare(constant, to, x, form) => declared(out, *constant, *to, x, form),
        RawStmt::Assign(p, op, a) => {
            assigned(out, p)?;
            match op {
                None => Ok(()),
                Some(op) => out.push_str(sign(*op)),
            }?;
            out.push_str("=")?;
            expr(out, a)
        }
        RawStmt::Call(to, x, arguments) => {
            target(out, to)?;
            spot(out, x)?;
            out.push_str("(")?;
            list(out, arguments.as_slice())?;
            out.push_str(")")
        }
        RawStmt::Break(at) => {
            out.push_str("break")?;
            place(out, *at)
        }
        RawStmt::Continue(at) => {
            out.push_str("continue")?;
            place(out, *at)
        }
        RawStmt::Return(at, a) => {
            out.push_str("return")?;
            place(out, *at)?;
            optional(out, " ", a)
        }
        _ => Ok(()),
    }
}

fn loop_word(
    out: &mut String,
    bound: &Option<RawBound>,
    name: &str,
    at: u32,
) -> Result<(), AllocError> {
    if let Some(bound) = bound {
        let text = format!(in *out.allocator(); "#{}@{} ", bound.value, bound.at)?;
        out.push_str(text.as_str())?;
    }
    out.push_str(name)?;
    place(out, at)?;
    out.push_str(" ")
}

fn held(out: &mut String, a: &Option<Boxed<RawStmt>>) -> Result<(), AllocError> {
    match a {
        None => Ok(()),
        Some(a) => simple(out, a.get()),
    }
}

#[cycle(statements)]
fn stmt(out: &mut String, a: &RawStmt) -> Result<(), AllocError> {
    match a {
        RawStmt::If(a, xs, ys) => {
            out.push_str("if ")?;
            expr(out, a)?;
            body(out, xs.as_slice())?;
            out.push_str("else")?;
            body(out, ys.as_slice())
        }
        RawStmt::While(at, bound, a, xs) => {
            loop_word(out, bound, "while", *at)?;
            expr(out, a)?;
            body(out, xs.as_slice())
        }
        RawStmt::Do(at, bound, xs, a) => {
            loop_word(out, bound, "do", *at)?;
            body(out, xs.as_slice())?;
            expr(out, a)?;
            out.push_str(";")
        }
        RawStmt::For(at, bound, i, a, j, xs) => {
            loop_word(out, bound, "for", *at)?;
            held(out, i)?;
            out.push_str("; ")?;
            expr(out, a)?;
            out.push_str("; ")?;
            held(out, j)?;
            body(out, xs.as_slice())
        }
        RawStmt::Group(xs) => body(out, xs.as_slice()),
        _ => {
            simple(out, a)?;
            out.push_str(";")
        }
    }
}

#[cycle(statements)]
fn body(out: &mut String, xs: &[RawStmt]) -> Result<(), AllocError> {
    out.push_str("{")?;
    for a in xs {
        stmt(out, a)?;
    }
    out.push_str("}")
}

fn function(out: &mut String, f: &RawFunc) -> Result<(), AllocError> {
    word(out, f.kept, "static ")?;
    match f.result {
        Some(to) => ty(out, to),
        None => out.push_str("void "),
    }?;
    spot(out, &f.spot)?;
    out.push_str("(")?;
    for param in f.params.as_slice() {
        ty(out, param.ty)?;
        spot(out, &param.spot)?;
        out.push_str(",")?;
    }
    out.push_str(")")?;
    body(out, f.body.as_slice())
}

fn top(out: &mut String, top: &RawTop) -> Result<(), AllocError> {
    match top {
        RawTop::Outer(constant, to, x, size) => {
            out.push_str("extern ")?;
            word(out, *constant, "const ")?;
            ty(out, *to)?;
            spot(out, x)?;
            match size {
                None => Ok(()),
                Some(size) => {
                    out.push_str("[")?;
                    expr(out, size)?;
                    out.push_str("]")
                }
            }?;
            out.push_str(";")
        }
        RawTop::Global(kept, constant, to, x, form) => {
            word(out, *kept, "static ")?;
            declared(out, *constant, *to, x, form)?;
            out.push_str(";")
        }
        RawTop::Func(f) => function(out, f),
    }
}

/// The tree of a unit, after its end.
pub fn shown(alloc: Global, unit: &Unit) -> Result<String, AllocError> {
    let mut out = format!(in alloc; "{}:", unit.end)?;
    for one in unit.tops.as_slice() {
        top(&mut out, one)?;
    }
    Ok(out)
}
