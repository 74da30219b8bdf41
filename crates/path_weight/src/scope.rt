//! What is in scope where an expression stands.

ghost use Rattle.std.specs.Prelude.{◌≡◌, option_copied};
ghost use Rattle.cond_laws.specs.Weights as spec;

use c_tree::{Global, Local, Var};

/// The function in which an expression stands, and the variables that it can name.
#[derive(Clone, Copy)]
pub(crate) struct Scope<'p> {
    pub(crate) func: u32,
    pub(crate) locals: &'p [Local],
    pub(crate) globals: &'p [Global],
}

/// How long an array is; of what is none it is 0.
pub(crate) fn length_of(scope: Scope, variable: Var) -> u32
    ensures { result ≡ spec.length_of scope.entry.locals.now scope.entry.globals.now variable }
{
    match variable {
        Var::Local(n) => local_length(scope.locals.get(n as usize)),
        Var::Global(n) => global_length(scope.globals.get(n as usize)),
    }
}

fn local_length(local: Option<&Local>) -> u32
    ensures { result ≡ spec.local_length (option_copied local.entry) }
{
    match local {
        None => 0,
        Some(local) => local.length.unwrap_or(0),
    }
}

fn global_length(global: Option<&Global>) -> u32
    ensures { result ≡ spec.global_length (option_copied global.entry) }
{
    match global {
        None => 0,
        Some(global) => global.length.unwrap_or(0),
    }
}
