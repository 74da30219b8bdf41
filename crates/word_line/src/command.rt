//! The command whose words are read.

ghost use Rattle.std.specs.Prelude.{◌≡◌, IfOk};
ghost use Rattle.clap.specs.Simple.{app_of};
ghost use Rattle.clap.specs.Simple as app;
ghost use Rattle.clap.specs.Walk.{rule_of};
ghost use Rattle.word_line.specs.Command as spec;

use clap::{Arg, ArgAction, Command};
use std::alloc::{AllocError, Global};

/// The command: the mode and the file by their places, options with one value, and flags. Help and version are switched
/// off.
#[tactic(auto, unfolding(crate::specs::Command::command))]
pub(crate) fn command<'a>(alloc: Global) -> Result<Command<'a>, AllocError>
    ensures { IfOk result (λ c. app_of c ≡ spec.command) }
{
    let command = with_places(alloc, bare(alloc))?;
    let command = with_texts(alloc, command)?;
    let command = with_limits(alloc, command)?;
    let command = with_case(alloc, command)?;
    with_flags(alloc, command)
}

fn bare<'a>(alloc: Global) -> Command<'a>
    ensures { app_of result ≡ spec.bare }
{
    Command::new(alloc, "wcet")
        .no_binary_name(true)
        .disable_help_flag(true)
        .disable_version_flag(true)
}

fn with_places<'a>(alloc: Global, command: Command<'a>) -> Result<Command<'a>, AllocError>
    ensures { IfOk result (λ c. app_of c ≡ spec.with_places (app_of command.entry)) }
{
    let command = with_place(alloc, command, "mode", true)?;
    with_place(alloc, command, "file", false)
}

fn with_texts<'a>(alloc: Global, command: Command<'a>) -> Result<Command<'a>, AllocError>
    ensures { IfOk result (λ c. app_of c ≡ spec.with_texts (app_of command.entry)) }
{
    let command = with_named(alloc, command, "costs", ArgAction::Set)?;
    let command = with_named(alloc, command, "entry", ArgAction::Set)?;
    with_named(alloc, command, "input", ArgAction::Set)
}

fn with_limits<'a>(alloc: Global, command: Command<'a>) -> Result<Command<'a>, AllocError>
    ensures { IfOk result (λ c. app_of c ≡ spec.with_limits (app_of command.entry)) }
{
    let command = with_named(alloc, command, "turns", ArgAction::Set)?;
    with_named(alloc, command, "conflicts", ArgAction::Set)
}

fn with_case<'a>(alloc: Global, command: Command<'a>) -> Result<Command<'a>, AllocError>
    ensures { IfOk result (λ c. app_of c ≡ spec.with_case (app_of command.entry)) }
{
    let command = with_named(alloc, command, "case", ArgAction::Set)?;
    with_named(alloc, command, "size", ArgAction::Set)
}

fn with_flags<'a>(alloc: Global, command: Command<'a>) -> Result<Command<'a>, AllocError>
    ensures { IfOk result (λ c. app_of c ≡ spec.with_flags (app_of command.entry)) }
{
    with_named(alloc, command, "table", ArgAction::SetTrue)
}

// The command with one more word that is known by its place.
fn with_place<'a>(
    alloc: Global,
    command: Command<'a>,
    name: &'a str,
    required: bool,
) -> Result<Command<'a>, AllocError>
    ensures { IfOk result (λ c. app_of c ≡ app.with_rule (app_of command.entry) (spec.place name.entry.now required)) }
{
    command.arg(Arg::new(alloc, name).required(required))
}

// The command with one more option or flag.
fn with_named<'a>(
    alloc: Global,
    command: Command<'a>,
    name: &'a str,
    action: ArgAction,
) -> Result<Command<'a>, AllocError>
    ensures { IfOk result (λ c. app_of c ≡ app.with_rule (app_of command.entry) (spec.named name.entry.now action)) }
{
    command.arg(Arg::new(alloc, name).long(name).action(action))
}
