//! Which inputs fit a program (this project's own).

ghost use Rattle.std.specs.Prelude.{◌≡◌, [], ◌∷◌, replicate, option_copied};
ghost use Rattle.c_tree.specs.Meaning.Values as values;
ghost use Rattle.c_tree.specs.Meaning.Runs as spec;
ghost use Rattle.c_input.specs.Starts.{rest_of, own_types};

use crate::inputs::width;
use c_tree::{Func, Global as Outside, Input, Local, Program, Ty};

/// Whether an input has as many numbers as the program asks for, each in its type's range: first those of the entry
/// function's parameters in order, then those of the `extern` variables, an array element by element. Takes no memory.
pub fn fits(program: &Program, input: &Input) -> bool
    ensures fits { result ≡ spec.fits program.now input.now }
{
    let entry = program.funcs.get(program.entry as usize);
    match behind_entry(entry, input.values.as_slice()) {
        None => false,
        Some(rest) => fit_globals(program.globals.as_slice(), rest),
    }
}

// Whether these numbers are those of the `extern` variables.
fn fit_globals(globals: &[Outside], numbers: &[i64]) -> bool
    ensures { result ≡ spec.are_of (spec.outer_types globals.now) numbers.now }
{
    let mut rest = numbers;
    for global in globals {
        match behind_global(global, rest) {
            None => return false,
            Some(more) => rest = more,
        }
    }
    rest.is_empty()
}

// The numbers behind those of a global, or None where the first ones do not fit it.
fn behind_global<'a>(global: &Outside, numbers: &'a [i64]) -> Option<&'a [i64]>
    ensures { option_copied result ≡ rest_of (own_types global.now) numbers.now }
{
    if global.outer {
        behind(global.ty, width(global.length), numbers)
    } else {
        Some(numbers)
    }
}

// The numbers behind those of the entry function's parameters.
fn behind_entry<'a>(entry: Option<&Func>, numbers: &'a [i64]) -> Option<&'a [i64]>
    ensures { option_copied result ≡ rest_of (spec.entry_types (option_copied entry.entry)) numbers.now }
{
    match entry {
        None => Some(numbers),
        Some(func) => behind_params(func.params, func.locals.as_slice(), numbers),
    }
}

// The numbers behind those of a function's parameters.
fn behind_params<'a>(params: u32, locals: &[Local], numbers: &'a [i64]) -> Option<&'a [i64]>
    ensures { option_copied result ≡ rest_of (spec.param_types params locals.now) numbers.now }
{
    let mut rest = numbers;
    let mut left = params;
    for local in locals {
        if left == 0 {
            return Some(rest);
        }
        left -= 1;
        match next(local.ty, rest) {
            None => return None,
            Some(more) => rest = more,
        }
    }
    Some(rest)
}

// The numbers behind so many of a type, or None where the first ones are not of it.
fn behind<'a>(ty: Ty, count: usize, numbers: &'a [i64]) -> Option<&'a [i64]>
    ensures { option_copied result ≡ rest_of (replicate count ty) numbers.now }
{
    let mut rest = numbers;
    for _at in 0..count {
        match next(ty, rest) {
            None => return None,
            Some(more) => rest = more,
        }
    }
    Some(rest)
}

// The numbers behind the first, or None where it is not of this type.
fn next<'a>(ty: Ty, numbers: &'a [i64]) -> Option<&'a [i64]>
    ensures { option_copied result ≡ rest_of (ty ∷ []) numbers.now }
{
    let (z, more) = numbers.split_first()?;
    if is_of(ty, z) { Some(more) } else { None }
}

// Whether a number lies in the range of a type.
fn is_of(ty: Ty, z: &i64) -> bool
    ensures { result ≡ values.is_of ty z.now }
{
    match ty {
        Ty::Int => i32::try_from(*z).is_ok(),
        Ty::Unsigned => u32::try_from(*z).is_ok(),
    }
}
