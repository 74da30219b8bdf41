//! The inputs of a program, declared in order: the parameters of the entry function, then the extern variables.

ghost use Rattle.std.specs.Prelude.{◌≡◌, ◌≤◌, ◌+◌, ◌++◌, [], ◌∷◌, length, map, replicate, OnOk};
ghost use Rattle.c_tree.specs.Meaning.Runs.{input_types, outer_types};
ghost use Rattle.c_tree.specs.Keeping.WellFormed.{WellFormed};
ghost use Rattle.cond_laws.specs.TermPaths as spec;
ghost use Rattle.cond_laws.specs.TermPaths.{is_signed};

use bv_term::Terms;
use c_tree::{Global, Local, NoMemory, Program, Ty};

/// How many inputs an extern variable of this length has.
pub(crate) fn width(length: Option<u32>) -> u32
    ensures { result ≡ spec.width length }
{
    match length {
        None => 1,
        Some(n) => n,
    }
}

// Whether numbers of the type have a sign.
fn is_signed(ty: Ty) -> bool
    ensures { result ≡ is_signed ty }
{
    match ty {
        Ty::Int => true,
        Ty::Unsigned => false,
    }
}

// So many inputs of a type.
fn declare_each(terms: &mut Terms, ty: Ty, count: u32) -> Result<(), NoMemory>
    requires { length terms.old.inputs + count ≤ 64 }
    ensures inputs { OnOk result (terms.new.inputs ≡ terms.old.inputs ++ replicate count (is_signed ty)) }
    ensures ops { terms.new.ops ≡ terms.old.ops }
{
    for k in 0..count {
        terms.declare(is_signed(ty))?;
    }
    Ok(())
}

// An input for each parameter.
fn declare_params(terms: &mut Terms, params: &[Local]) -> Result<(), NoMemory>
    requires { length terms.old.inputs + length params.now ≤ 64 }
    ensures inputs { OnOk result (terms.new.inputs ≡ terms.old.inputs ++ map (λ l. is_signed l.ty) params.now) }
    ensures ops { terms.new.ops ≡ terms.old.ops }
{
    for param in params {
        terms.declare(is_signed(param.ty))?;
    }
    Ok(())
}

// The inputs of a global, if it is an extern one.
fn declare_global(terms: &mut Terms, global: &Global) -> Result<(), NoMemory>
    requires { length terms.old.inputs + length (outer_types (global.now ∷ [])) ≤ 64 }
    ensures inputs { OnOk result
        (terms.new.inputs ≡ terms.old.inputs ++ map is_signed (outer_types (global.now ∷ []))) }
    ensures ops { terms.new.ops ≡ terms.old.ops }
{
    if global.outer {
        declare_each(terms, global.ty, width(global.length))
    } else {
        Ok(())
    }
}

// The inputs of the extern variables.
fn declare_globals(terms: &mut Terms, globals: &[Global]) -> Result<(), NoMemory>
    requires { length terms.old.inputs + length (outer_types globals.now) ≤ 64 }
    ensures inputs { OnOk result (terms.new.inputs ≡ terms.old.inputs ++ map is_signed (outer_types globals.now)) }
    ensures ops { terms.new.ops ≡ terms.old.ops }
{
    for global in globals {
        declare_global(terms, global)?;
    }
    Ok(())
}

/// Declares the inputs of a program in a store of terms that has none.
pub(crate) fn declare_inputs(terms: &mut Terms, program: &Program) -> Result<(), NoMemory>
    requires formed { WellFormed program.now }
    requires none { terms.old.inputs ≡ [] }
    ensures inputs { OnOk result (terms.new.inputs ≡ map is_signed (input_types program.now)) }
    ensures ops { terms.new.ops ≡ terms.old.ops }
{
    let entry = &program.funcs.as_slice()[program.entry as usize];
    declare_params(terms, &entry.locals.as_slice()[..entry.params as usize])?;
    declare_globals(terms, program.globals.as_slice())
}
