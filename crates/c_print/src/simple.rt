//! The text of statements of one line (C11 6.7, 6.8).

ghost use Rattle.std.specs.Prelude.{◌≡◌, ◌++◌, OnOk};
ghost use Rattle.print_laws.specs.PrintedExpressions.{expr_text};
ghost use Rattle.print_laws.specs.PrintedStatements.{
  list_text,
  value_part,
  place_text,
  assign_text,
  target_text,
  called_text,
  return_text,
  simple_text,
};

use crate::exprs::{push_expr, push_exprs};
use c_tree::{BinOp, Expr, Func, NoMemory, Place, Program, Stmt, Target};
use print_words::{bin_text, push, push_declaration, push_func_name, push_name};

/// A statement of one line, without its semicolon; of a statement of several lines, nothing.
#[tactic(auto, using(print_laws::proofs::Composing::StmtLayers::simple_layers))]
pub(crate) fn push_simple(
    text: &mut Vec<u8>,
    program: &Program,
    func: &Func,
    stmt: &Stmt,
) -> Result<(), NoMemory>
    ensures { OnOk result (text.new.items ≡ text.old.items ++ simple_text program.now func.now stmt.now) }
{
    match stmt {
        Stmt::Empty => Ok(()),
        Stmt::Scalar(number, value) => {
            push_declaration(text, func, *number)?;
            push_value_part(text, program, func, value)
        }
        Stmt::Array(number, list) => {
            push_declaration(text, func, *number)?;
            push(text, b" = ")?;
            push_list(text, program, func, list.as_slice())
        }
        Stmt::Assign(place, op, value) => {
            push_place(text, program, func, place)?;
            push_assign(text, *op)?;
            push_expr(text, program, func, value)
        }
        Stmt::Call(target, callee, arguments) => {
            push_target(text, program, func, *target)?;
            push_called(text, program, func, *callee, arguments.as_slice())
        }
        Stmt::Break => push(text, b"break"),
        Stmt::Continue => push(text, b"continue"),
        Stmt::Return(value) => push_return(text, program, func, value),
        Stmt::If(_, _, _) => Ok(()),
        Stmt::While(_, _, _) => Ok(()),
        Stmt::Do(_, _, _) => Ok(()),
        Stmt::For(_, _, _, _, _) => Ok(()),
        Stmt::Group(_) => Ok(()),
    }
}

#[tactic(auto, unfolding(print_laws::specs::PrintedStatements::value_part))]
fn push_value_part(
    text: &mut Vec<u8>,
    program: &Program,
    func: &Func,
    value: &Option<Expr>,
) -> Result<(), NoMemory>
    ensures { OnOk result (text.new.items ≡ text.old.items ++ value_part program.now func.now value.now) }
{
    match value {
        None => Ok(()),
        Some(expr) => {
            push(text, b" = ")?;
            push_expr(text, program, func, expr)
        }
    }
}

#[tactic(auto, unfolding(print_laws::specs::PrintedStatements::list_text))]
fn push_list(
    text: &mut Vec<u8>,
    program: &Program,
    func: &Func,
    list: &[Expr],
) -> Result<(), NoMemory>
    ensures { OnOk result (text.new.items ≡ text.old.items ++ list_text (expr_text program.now func.now) list.now) }
{
    push(text, b"{")?;
    push_exprs(text, program, func, list)?;
    push(text, b"}")
}

#[tactic(auto, unfolding(print_laws::specs::PrintedStatements::place_text))]
fn push_place(
    text: &mut Vec<u8>,
    program: &Program,
    func: &Func,
    place: &Place,
) -> Result<(), NoMemory>
    ensures { OnOk result (text.new.items ≡ text.old.items ++ place_text program.now func.now place.now) }
{
    match place {
        Place::Scalar(var) => push_name(text, program, func, *var),
        Place::Elem(var, index) => {
            push_name(text, program, func, *var)?;
            push(text, b"[")?;
            push_expr(text, program, func, index)?;
            push(text, b"]")
        }
    }
}

#[tactic(auto, unfolding(print_laws::specs::PrintedStatements::assign_text))]
fn push_assign(text: &mut Vec<u8>, op: Option<BinOp>) -> Result<(), NoMemory>
    ensures { OnOk result (text.new.items ≡ text.old.items ++ assign_text op) }
{
    match op {
        None => push(text, b" = "),
        Some(op) => {
            push(text, b" ")?;
            push(text, bin_text(op))?;
            push(text, b"= ")
        }
    }
}

#[tactic(auto, unfolding(print_laws::specs::PrintedStatements::target_text))]
fn push_target(
    text: &mut Vec<u8>,
    program: &Program,
    func: &Func,
    target: Target,
) -> Result<(), NoMemory>
    ensures { OnOk result (text.new.items ≡ text.old.items ++ target_text program.now func.now target) }
{
    match target {
        Target::Nothing => Ok(()),
        Target::Assign(var) => {
            push_name(text, program, func, var)?;
            push(text, b" = ")
        }
        Target::Declare(number) => {
            push_declaration(text, func, number)?;
            push(text, b" = ")
        }
    }
}

#[tactic(auto, unfolding(print_laws::specs::PrintedStatements::called_text))]
fn push_called(
    text: &mut Vec<u8>,
    program: &Program,
    func: &Func,
    callee: u32,
    arguments: &[Expr],
) -> Result<(), NoMemory>
    ensures { OnOk result (text.new.items ≡ text.old.items ++ called_text program.now func.now callee arguments.now) }
{
    push_func_name(text, program, callee)?;
    push(text, b"(")?;
    push_exprs(text, program, func, arguments)?;
    push(text, b")")
}

#[tactic(auto, unfolding(print_laws::specs::PrintedStatements::return_text))]
fn push_return(
    text: &mut Vec<u8>,
    program: &Program,
    func: &Func,
    value: &Option<Expr>,
) -> Result<(), NoMemory>
    ensures { OnOk result (text.new.items ≡ text.old.items ++ return_text program.now func.now value.now) }
{
    match value {
        None => push(text, b"return"),
        Some(expr) => {
            push(text, b"return ")?;
            push_expr(text, program, func, expr)
        }
    }
}
