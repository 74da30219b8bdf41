//! The lines of statements (C11 6.8).

ghost use Rattle.std.specs.Prelude.{◌≡◌, ◌+◌, ◌++◌, OnOk, codes};
ghost use Rattle.print_laws.specs.PrintedExpressions.{expr_text};
ghost use Rattle.print_laws.specs.PrintedStatements.{
  line,
  bound_text,
  for_text,
  simple_text,
  stmt_text,
  stmts_text,
  otherwise_text,
  part_text,
};

use crate::exprs::push_expr;
use crate::simple::push_simple;
use c_tree::{Expr, Func, NoMemory, Program, Stmt};
use print_words::{push, push_bound, push_line, push_margin};
use sqlite_items::Boxed;

// A line at a level in which an expression stands.
#[tactic(auto, unfolding(print_laws::specs::PrintedStatements::line))]
fn push_around(
    text: &mut Vec<u8>,
    program: &Program,
    func: &Func,
    level: usize,
    before: &[u8],
    expr: &Expr,
    after: &[u8],
) -> Result<(), NoMemory>
    ensures { OnOk result (text.new.items ≡ text.old.items ++ line level (before.now ++ expr_text program.now func.now
        expr.now ++ after.now)) }
{
    push_margin(text, level)?;
    push(text, before)?;
    push_expr(text, program, func, expr)?;
    push(text, after)?;
    push(text, b"\n")
}

#[tactic(auto, unfolding(print_laws::specs::PrintedStatements::line))]
fn push_simple_line(
    text: &mut Vec<u8>,
    program: &Program,
    func: &Func,
    level: usize,
    stmt: &Stmt,
) -> Result<(), NoMemory>
    ensures { OnOk result (text.new.items ≡ text.old.items ++ line level (simple_text program.now func.now stmt.now
        ++ codes ";")) }
{
    push_margin(text, level)?;
    push_simple(text, program, func, stmt)?;
    push(text, b";\n")
}

// The initialiser or the step of a `for`.
#[tactic(auto, unfolding(print_laws::specs::PrintedStatements::part_text))]
fn push_part(
    text: &mut Vec<u8>,
    program: &Program,
    func: &Func,
    part: &Option<Boxed<Stmt>>,
) -> Result<(), NoMemory>
    ensures { OnOk result (text.new.items ≡ text.old.items ++ part_text program.now func.now part.now) }
{
    match part {
        None => Ok(()),
        Some(stmt) => push_simple(text, program, func, stmt.get()),
    }
}

// The first line of a `for`, without its margin and its line feed.
#[tactic(auto, unfolding(print_laws::specs::PrintedStatements::for_text))]
fn push_for_head(
    text: &mut Vec<u8>,
    program: &Program,
    func: &Func,
    first: &Option<Boxed<Stmt>>,
    condition: &Expr,
    step: &Option<Boxed<Stmt>>,
) -> Result<(), NoMemory>
    ensures { OnOk result (text.new.items ≡ text.old.items ++ for_text (part_text program.now func.now first.now)
        (expr_text program.now func.now condition.now) (part_text program.now func.now step.now)) }
{
    push(text, b"for (")?;
    push_part(text, program, func, first)?;
    push(text, b"; ")?;
    push_expr(text, program, func, condition)?;
    push(text, b"; ")?;
    push_part(text, program, func, step)?;
    push(text, b") {")
}

// The first line of a `for`, at a level.
#[tactic(auto, unfolding(print_laws::specs::PrintedStatements::line))]
fn push_for(
    text: &mut Vec<u8>,
    program: &Program,
    func: &Func,
    level: usize,
    first: &Option<Boxed<Stmt>>,
    condition: &Expr,
    step: &Option<Boxed<Stmt>>,
) -> Result<(), NoMemory>
    ensures { OnOk result (text.new.items ≡ text.old.items
        ++ line level (for_text (part_text program.now func.now first.now) (expr_text program.now func.now
        condition.now) (part_text program.now func.now step.now))) }
{
    push_margin(text, level)?;
    push_for_head(text, program, func, first, condition, step)?;
    push(text, b"\n")
}

/// The statements of a list, one level deeper. A level that a `usize` does not hold is want of memory.
#[cycle(stmts)]
pub(crate) fn push_block(
    text: &mut Vec<u8>,
    program: &Program,
    func: &Func,
    level: usize,
    stmts: &[Stmt],
) -> Result<(), NoMemory>
    ensures { OnOk result (text.new.items ≡ text.old.items ++ stmts_text program.now func.now (level + 1) stmts.now) }
{
    let inner = level.checked_add(1).ok_or(NoMemory)?;
    for stmt in stmts {
        push_stmt(text, program, func, inner, stmt)?;
    }
    Ok(())
}

// What stands behind the first list of an `if`.
#[cycle(stmts)]
#[tactic(auto, using(print_laws::proofs::Composing::StmtLayers::otherwise_layers))]
fn push_otherwise(
    text: &mut Vec<u8>,
    program: &Program,
    func: &Func,
    level: usize,
    stmts: &[Stmt],
) -> Result<(), NoMemory>
    ensures { OnOk result (text.new.items ≡ text.old.items ++ otherwise_text program.now func.now level stmts.now) }
{
    if stmts.is_empty() {
        return push_line(text, level, b"}");
    }
    push_line(text, level, b"} else {")?;
    push_block(text, program, func, level, stmts)?;
    push_line(text, level, b"}")
}

// A statement at a level.
#[cycle(stmts)]
#[tactic(auto, using(print_laws::proofs::Composing::StmtLayers::stmt_layers))]
fn push_stmt(
    text: &mut Vec<u8>,
    program: &Program,
    func: &Func,
    level: usize,
    stmt: &Stmt,
) -> Result<(), NoMemory>
    ensures { OnOk result (text.new.items ≡ text.old.items ++ stmt_text program.now func.now level stmt.now) }
{
    match stmt {
        Stmt::If(condition, first, second) => {
            push_around(text, program, func, level, b"if (", condition, b") {")?;
            push_block(text, program, func, level, first.as_slice())?;
            push_otherwise(text, program, func, level, second.as_slice())
        }
        Stmt::While(bound, condition, body) => {
            push_bound(text, *bound)?;
            push_around(text, program, func, level, b"while (", condition, b") {")?;
            push_block(text, program, func, level, body.as_slice())?;
            push_line(text, level, b"}")
        }
        Stmt::Do(bound, body, condition) => {
            push_bound(text, *bound)?;
            push_line(text, level, b"do {")?;
            push_block(text, program, func, level, body.as_slice())?;
            push_around(text, program, func, level, b"} while (", condition, b");")
        }
        Stmt::For(bound, first, condition, step, body) => {
            push_bound(text, *bound)?;
            push_for(text, program, func, level, first, condition, step)?;
            push_block(text, program, func, level, body.as_slice())?;
            push_line(text, level, b"}")
        }
        Stmt::Group(body) => {
            push_line(text, level, b"{")?;
            push_block(text, program, func, level, body.as_slice())?;
            push_line(text, level, b"}")
        }
        Stmt::Empty
        | Stmt::Scalar(_, _)
        | Stmt::Array(_, _)
        | Stmt::Assign(_, _, _)
        | Stmt::Call(_, _, _)
        | Stmt::Break
        | Stmt::Continue
        | Stmt::Return(_) => push_simple_line(text, program, func, level, stmt),
    }
}
