//! The text of a program.

ghost use Rattle.std.specs.Prelude.{◌≡◌, ◌++◌, ℕ, List, IfOk, OnOk, take, codes, flat_map};
ghost use Rattle.c_tree.specs.declared.unit.Unit.{Unit as Tree};
ghost use Rattle.c_tree.specs.Checking.Checked.{IsSpelled};
ghost use Rattle.c_tree.specs.Checking.Refusals.{Typed};
ghost use Rattle.print_laws.specs.Again.{IsReadAs};
ghost use Rattle.print_laws.specs.PrintedExpressions.{comma_list};
ghost use Rattle.print_laws.specs.Printed.{
  global_text,
  result_text,
  param_text,
  params_text,
  head_text,
  func_text,
  printed_program,
};

use crate::stmts::push_block;
use c_tree::{Func, Global as Outside, Local, NoMemory, Program, Ty};
use print_laws::law::printed_programs_are_read_again;
use print_words::{push, push_declared, push_global, type_text};
use std::alloc::Global;
use typed_laws::program_is_typed;

/// The text of a program: one declaration or statement a line in the order of the program, the globals first, four
/// blanks a level, braces always, and the bound of a loop at the beginning of the line before it. It is read again as
/// this program: it has tokens that spell a unit, and with each entry with which the program was typed this unit is
/// typed as the program.
///
/// # Errors
///
/// `NoMemory` is want of memory.
pub fn print(alloc: Global, program: &Program) -> Result<Vec<u8>, NoMemory>
    ensures text { IfOk result (λ t. t.items ≡ printed_program program.now) }
    ensures read { IfOk result (λ t. (entry : List ℕ) × IsReadAs t.items entry program.now) }
    ensures again { (unit : Tree) (entry : List ℕ) → IsSpelled unit → Typed unit entry program.now
        → IfOk result (λ t. IsReadAs t.items entry program.now) }
{
    program_is_typed(program);
    printed_programs_are_read_again();
    printed(alloc, program)
}

#[tactic(auto, unfolding(print_laws::specs::Printed::printed_program))]
fn printed(alloc: Global, program: &Program) -> Result<Vec<u8>, NoMemory>
    ensures { IfOk result (λ t. t.items ≡ printed_program program.now) }
{
    let mut text = Vec::new(alloc);
    push_globals(&mut text, program.globals.as_slice())?;
    push_funcs(&mut text, program, program.funcs.as_slice())?;
    Ok(text)
}

fn push_globals(text: &mut Vec<u8>, globals: &[Outside]) -> Result<(), NoMemory>
    ensures { OnOk result (text.new.items ≡ text.old.items ++ flat_map global_text globals.now) }
{
    for global in globals {
        push_global(text, global)?;
    }
    Ok(())
}

fn push_funcs(text: &mut Vec<u8>, program: &Program, funcs: &[Func]) -> Result<(), NoMemory>
    ensures { OnOk result (text.new.items ≡ text.old.items ++ flat_map (func_text program.now) funcs.now) }
{
    for func in funcs {
        push_func(text, program, func)?;
    }
    Ok(())
}

#[tactic(auto, unfolding(print_laws::specs::Printed::func_text))]
fn push_func(text: &mut Vec<u8>, program: &Program, func: &Func) -> Result<(), NoMemory>
    ensures { OnOk result (text.new.items ≡ text.old.items ++ func_text program.now func.now) }
{
    push_head(text, func)?;
    push_block(text, program, func, 0, func.body.as_slice())?;
    push(text, b"}\n")
}

// The first line of a function.
#[tactic(auto, unfolding(print_laws::specs::Printed::head_text))]
fn push_head(text: &mut Vec<u8>, func: &Func) -> Result<(), NoMemory>
    ensures { OnOk result (text.new.items ≡ text.old.items ++ head_text func.now) }
{
    push_result(text, func.result)?;
    push(text, b" ")?;
    push(text, func.name.as_slice())?;
    push(text, b"(")?;
    push_params(text, func)?;
    push(text, b") {\n")
}

#[tactic(auto, unfolding(print_laws::specs::Printed::result_text))]
fn push_result(text: &mut Vec<u8>, given: Option<Ty>) -> Result<(), NoMemory>
    ensures { OnOk result (text.new.items ≡ text.old.items ++ result_text given) }
{
    match given {
        None => push(text, b"void"),
        Some(ty) => push(text, type_text(ty)),
    }
}

// The parameters of a function.
fn push_params(text: &mut Vec<u8>, func: &Func) -> Result<(), NoMemory>
    ensures { OnOk result (text.new.items ≡ text.old.items ++ params_text (take func.now.params func.now.locals)) }
{
    let locals = func.locals.as_slice();
    let count = locals.len().min(func.params as usize);
    push_listed(text, &locals[..count])
}

#[tactic(auto, unfolding(print_laws::specs::Printed::params_text, print_laws::specs::Printed::param_text, print_laws::specs::PrintedExpressions::comma_list))]
fn push_listed(text: &mut Vec<u8>, params: &[Local]) -> Result<(), NoMemory>
    ensures { OnOk result (text.new.items ≡ text.old.items ++ params_text params.now) }
{
    match params.split_first() {
        None => push(text, b"void"),
        Some((first, rest)) => {
            push_declared(text, first.ty, first.name.as_slice(), first.length)?;
            push_more_params(text, rest)
        }
    }
}

#[tactic(auto, unfolding(print_laws::specs::Printed::param_text))]
fn push_more_params(text: &mut Vec<u8>, params: &[Local]) -> Result<(), NoMemory>
    ensures { OnOk result (text.new.items ≡ text.old.items ++ flat_map (λ l. codes ", " ++ param_text l) params.now) }
{
    for local in params {
        push(text, b", ")?;
        push_declared(text, local.ty, local.name.as_slice(), local.length)?;
    }
    Ok(())
}
