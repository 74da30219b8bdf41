//! Names, types, operators and numbers, each written at the end of a text.

ghost use Rattle.std.specs.Prelude.{◌≡◌, ◌++◌, OnOk, codes, decimal, slice_get};
ghost use Rattle.print_laws.specs.PrintedExpressions.{name_text, type_text, un_text, bin_text, number_text, value_text};
ghost use Rattle.print_laws.specs.PrintedStatements.{margin, length_text, declared_text, declaration_text, func_name};

use c_tree::{BinOp, Func, Local, NoMemory, Program, Ty, UnOp, Var};
use itoa::Buffer;

/// Bytes as they are.
pub fn push(text: &mut Vec<u8>, bytes: &[u8]) -> Result<(), NoMemory>
    ensures { OnOk result (text.new.items ≡ text.old.items ++ bytes.now) }
{
    Ok(text.extend_from_slice(bytes)?)
}

/// A number in decimal.
pub fn push_decimal(text: &mut Vec<u8>, number: u64) -> Result<(), NoMemory>
    ensures { OnOk result (text.new.items ≡ text.old.items ++ decimal number) }
{
    let mut buffer = Buffer::new();
    push(text, buffer.format(number).as_bytes())
}

/// A number of a type.
#[tactic(auto, unfolding(print_laws::specs::PrintedExpressions::number_text))]
pub fn push_number(text: &mut Vec<u8>, ty: Ty, number: u64) -> Result<(), NoMemory>
    ensures { OnOk result (text.new.items ≡ text.old.items ++ number_text ty number) }
{
    push_decimal(text, number)?;
    match ty {
        Ty::Int => Ok(()),
        Ty::Unsigned => push(text, b"u"),
    }
}

/// A kept value of a type.
#[tactic(auto, unfolding(print_laws::specs::PrintedExpressions::value_text))]
pub fn push_value(text: &mut Vec<u8>, ty: Ty, value: i64) -> Result<(), NoMemory>
    ensures { OnOk result (text.new.items ≡ text.old.items ++ value_text ty value) }
{
    if value >= 0 {
        push_number(text, ty, value.unsigned_abs())
    } else if value == -2_147_483_648 {
        push(text, b"(int)2147483648u")
    } else {
        push(text, b"-")?;
        push_number(text, ty, value.unsigned_abs())
    }
}

/// The word of a type.
#[tactic(auto, unfolding(print_laws::specs::PrintedExpressions::type_text))]
pub fn type_text(ty: Ty) -> &'static [u8]
    ensures { result.now ≡ type_text ty }
{
    match ty {
        Ty::Int => b"int",
        Ty::Unsigned => b"unsigned",
    }
}

/// The mark of a unary operator.
#[tactic(auto, unfolding(print_laws::specs::PrintedExpressions::un_text))]
pub fn un_text(op: UnOp) -> &'static [u8]
    ensures { result.now ≡ un_text op }
{
    match op {
        UnOp::Plus => b"+",
        UnOp::Minus => b"-",
        UnOp::Flip => b"~",
        UnOp::Not => b"!",
    }
}

/// The mark of a binary operator.
#[tactic(auto, unfolding(print_laws::specs::PrintedExpressions::bin_text))]
pub fn bin_text(op: BinOp) -> &'static [u8]
    ensures { result.now ≡ bin_text op }
{
    match op {
        BinOp::Mul => b"*",
        BinOp::Div => b"/",
        BinOp::Rem => b"%",
        BinOp::Add => b"+",
        BinOp::Sub => b"-",
        BinOp::Shl => b"<<",
        BinOp::Shr => b">>",
        BinOp::Lt => b"<",
        BinOp::Gt => b">",
        BinOp::Le => b"<=",
        BinOp::Ge => b">=",
        BinOp::Eq => b"==",
        BinOp::Ne => b"!=",
        BinOp::And => b"&",
        BinOp::Xor => b"^",
        BinOp::Or => b"|",
        BinOp::Both => b"&&",
        BinOp::Either => b"||",
    }
}

/// A variable by its name, in a function of a program.
#[tactic(auto, unfolding(print_laws::specs::PrintedExpressions::name_text))]
pub fn push_name(
    text: &mut Vec<u8>,
    program: &Program,
    func: &Func,
    var: Var,
) -> Result<(), NoMemory>
    ensures { OnOk result (text.new.items ≡ text.old.items ++ name_text program.now func.now var) }
{
    match var {
        Var::Local(n) => match func.locals.as_slice().get(n as usize) {
            Some(local) => push(text, local.name.as_slice()),
            None => Ok(()),
        },
        Var::Global(n) => match program.globals.as_slice().get(n as usize) {
            Some(global) => push(text, global.name.as_slice()),
            None => Ok(()),
        },
    }
}

/// The function of a number by its name.
#[tactic(auto, unfolding(print_laws::specs::PrintedStatements::func_name))]
pub fn push_func_name(text: &mut Vec<u8>, program: &Program, number: u32) -> Result<(), NoMemory>
    ensures { OnOk result (text.new.items ≡ text.old.items ++ func_name (slice_get program.now.funcs number)) }
{
    match program.funcs.as_slice().get(number as usize) {
        Some(func) => push(text, func.name.as_slice()),
        None => Ok(()),
    }
}

/// Four blanks for each level.
#[tactic(auto, unfolding(print_laws::specs::PrintedStatements::margin))]
pub fn push_margin(text: &mut Vec<u8>, level: usize) -> Result<(), NoMemory>
    ensures { OnOk result (text.new.items ≡ text.old.items ++ margin level) }
{
    for _ in 0..level {
        push(text, b"    ")?;
    }
    Ok(())
}

// The length of an array, in brackets.
#[tactic(auto, unfolding(print_laws::specs::PrintedStatements::length_text))]
fn push_length(text: &mut Vec<u8>, length: Option<u32>) -> Result<(), NoMemory>
    ensures { OnOk result (text.new.items ≡ text.old.items ++ length_text length) }
{
    match length {
        None => Ok(()),
        Some(n) => {
            push(text, b"[")?;
            push_decimal(text, u64::from(n))?;
            push(text, b"]")
        }
    }
}

/// A type, a name, and the length of an array.
#[tactic(auto, unfolding(print_laws::specs::PrintedStatements::declared_text))]
pub fn push_declared(
    text: &mut Vec<u8>,
    ty: Ty,
    name: &[u8],
    length: Option<u32>,
) -> Result<(), NoMemory>
    ensures { OnOk result (text.new.items ≡ text.old.items ++ declared_text ty name.now length) }
{
    push(text, type_text(ty))?;
    push(text, b" ")?;
    push(text, name)?;
    push_length(text, length)
}

/// The declaration of a local, without an initialiser.
#[tactic(auto, unfolding(print_laws::specs::PrintedStatements::declaration_text, print_laws::specs::PrintedStatements::local_text))]
pub fn push_declaration(text: &mut Vec<u8>, func: &Func, number: u32) -> Result<(), NoMemory>
    ensures { OnOk result (text.new.items ≡ text.old.items ++ declaration_text func.now number) }
{
    match func.locals.as_slice().get(number as usize) {
        Some(local) => push_declared(text, local.ty, local.name.as_slice(), local.length),
        None => Ok(()),
    }
}
