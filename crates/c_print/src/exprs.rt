//! The text of expressions (C11 6.5).

ghost use Rattle.std.specs.Prelude.{◌≡◌, ◌++◌, OnOk, codes, flat_map};
ghost use Rattle.print_laws.specs.PrintedExpressions.{comma_list, expr_text, operand_text};

use c_tree::{Expr, Func, NoMemory, Program};
use print_words::{bin_text, level, push, push_name, push_number, strength, type_text, un_text};

// An operand, in parentheses where it holds less tightly than asked.
#[cycle(exprs)]
#[tactic(auto, unfolding(print_laws::specs::PrintedExpressions::operand_text))]
fn push_operand(
    text: &mut Vec<u8>,
    program: &Program,
    func: &Func,
    least: u32,
    expr: &Expr,
) -> Result<(), NoMemory>
    ensures { OnOk result (text.new.items ≡ text.old.items ++ operand_text program.now func.now least expr.now) }
{
    if strength(expr) < least {
        push(text, b"(")?;
        push_expr(text, program, func, expr)?;
        push(text, b")")
    } else {
        push_expr(text, program, func, expr)
    }
}

/// An expression.
#[cycle(exprs)]
#[tactic(auto, using(print_laws::proofs::Composing::ExprLayers::expr_layers))]
pub(crate) fn push_expr(
    text: &mut Vec<u8>,
    program: &Program,
    func: &Func,
    expr: &Expr,
) -> Result<(), NoMemory>
    ensures { OnOk result (text.new.items ≡ text.old.items ++ expr_text program.now func.now expr.now) }
{
    match expr {
        Expr::Num(ty, n) => push_number(text, *ty, u64::from(*n)),
        Expr::Name(var) => push_name(text, program, func, *var),
        Expr::Elem(var, i) => {
            push_name(text, program, func, *var)?;
            push(text, b"[")?;
            push_operand(text, program, func, 0, i.get())?;
            push(text, b"]")
        }
        Expr::Un(op, a) => {
            push(text, un_text(*op))?;
            push_operand(text, program, func, 12, a.get())
        }
        Expr::Cast(ty, a) => {
            push(text, b"(")?;
            push(text, type_text(*ty))?;
            push(text, b")")?;
            push_operand(text, program, func, 11, a.get())
        }
        Expr::Bin(op, a, b) => {
            let own = level(*op);
            push_operand(text, program, func, own, a.get())?;
            push(text, b" ")?;
            push(text, bin_text(*op))?;
            push(text, b" ")?;
            push_operand(text, program, func, own + 1, b.get())
        }
        Expr::Cond(c, a, b) => {
            push_operand(text, program, func, 1, c.get())?;
            push(text, b" ? ")?;
            push_operand(text, program, func, 0, a.get())?;
            push(text, b" : ")?;
            push_operand(text, program, func, 0, b.get())
        }
    }
}

/// Expressions with a comma between any two.
#[tactic(auto, unfolding(print_laws::specs::PrintedExpressions::comma_list))]
pub(crate) fn push_exprs(
    text: &mut Vec<u8>,
    program: &Program,
    func: &Func,
    exprs: &[Expr],
) -> Result<(), NoMemory>
    ensures { OnOk result (text.new.items ≡ text.old.items ++ comma_list (expr_text program.now func.now) exprs.now) }
{
    match exprs.split_first() {
        None => Ok(()),
        Some((first, rest)) => {
            push_expr(text, program, func, first)?;
            push_more(text, program, func, rest)
        }
    }
}

fn push_more(
    text: &mut Vec<u8>,
    program: &Program,
    func: &Func,
    exprs: &[Expr],
) -> Result<(), NoMemory>
    ensures { OnOk result (text.new.items ≡ text.old.items
        ++ flat_map (λ e. codes ", " ++ expr_text program.now func.now e) exprs.now) }
{
    for expr in exprs {
        push(text, b", ")?;
        push_expr(text, program, func, expr)?;
    }
    Ok(())
}
