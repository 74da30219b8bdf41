//! From what was found in words to a job.

ghost use Rattle.std.specs.Prelude.{
  ◌≡◌,
  ◌≤◌,
  ◌<◌,
  ℕ,
  List,
  Some,
  None,
  IsTrue,
  option_map,
  option_copied,
  unwrap_or,
  IfOk,
  IfSome,
  IfNone,
  IsErrOf,
};
ghost use Rattle.clap.specs.Matches.{found_of};
ghost use Rattle.clap.specs.Walk.{rows_of, first_of};
ghost use Rattle.word_line.specs.declared.job.Mode.{Mode};
ghost use Rattle.word_line.specs.declared.job.Job.{Job};
ghost use Rattle.word_line.specs.declared.found.Numbers.{Numbers};
ghost use Rattle.word_line.specs.Words.{IsMode, IsNumber, IsJobOf, has_flag, mode_of};
ghost use Rattle.word_line.specs.Jobs.{is_built, has_file};
ghost use Rattle.word_line.specs.Numbers.{AreNumbers};

use crate::{Job, Mode, Name, WordFault};
use clap::ArgMatches;
use std::alloc::{AllocError, Global};
use text_lines::number_of;

// The numbers of a job.
#[derive(Clone, Copy)]
struct Numbers {
    turns: u32,
    conflicts: u32,
    case: u16,
    size: u32,
}

/// The job of what was found.
pub(crate) fn job_of(alloc: Global, found: &ArgMatches<'_>) -> Result<Job, WordFault>
    ensures asked { IfOk result (IsJobOf (rows_of (found_of found.now))) }
    ensures refused { IsErrOf result WordFault.Refused → (job : Job) → ¬ (IsJobOf (rows_of (found_of found.now)) job) }
{
    let Some(mode) = mode_in(found) else {
        return Err(WordFault::Refused);
    };
    let Some(numbers) = numbers_in(found) else {
        return Err(WordFault::Refused);
    };
    Ok(job_with(alloc, found, mode, numbers)?)
}

// The mode, with a file or without as it asks.
fn mode_in(found: &ArgMatches<'_>) -> Option<Mode>
    ensures mode { IfSome result (λ mode. IsMode (rows_of (found_of found.now)) mode) }
    ensures built { IfSome result (λ mode. IsTrue (is_built mode)) }
    ensures none { IfNone result ((mode : Mode) → ¬ (IsMode (rows_of (found_of found.now)) mode)) }
{
    let mode = mode_of(value(found, "mode")?)?;
    if value(found, "file").is_some() == has_file(mode) {
        Some(mode)
    } else {
        None
    }
}

fn numbers_in(found: &ArgMatches<'_>) -> Option<Numbers>
    ensures some { IfSome result (AreNumbers (rows_of (found_of found.now))) }
    ensures none { IfNone result ((n : Numbers) → ¬ (AreNumbers (rows_of (found_of found.now)) n)) }
{
    Some(Numbers {
        turns: number_in(found, "turns", 1, 16_384, 4096)?,
        conflicts: number_in(found, "conflicts", 1, 100_000, 10_000)?,
        case: number_in(found, "case", 0, 65_535, 0)? as u16,
        size: number_in(found, "size", 1, 64, 4)?,
    })
}

// The number of an option, or its default; none where what is written is no number within the limits.
fn number_in(found: &ArgMatches<'_>, name: &str, least: u32, most: u32, default: u32) -> Option<u32>
    requires least { least ≤ default }
    requires most { default ≤ most }
    ensures some { IfSome result (IsNumber least most default (first_of name.now (rows_of (found_of found.now)))) }
    ensures none { IfNone result ((n : ℕ) → ¬ (IsNumber least most default
        (first_of name.now (rows_of (found_of found.now))) n)) }
{
    match value(found, name) {
        Some(text) => number_within(text, least, most),
        None => Some(default),
    }
}

fn number_within(text: &str, least: u32, most: u32) -> Option<u32>
    ensures some { IfSome result (IsNumber least most 0 (Some text.now)) }
    ensures none { IfNone result ((n : ℕ) → ¬ (IsNumber least most 0 (Some text.now) n)) }
{
    let number = number_of(text.as_bytes())?;
    if number < u128::from(least) {
        return None;
    }
    if number > u128::from(most) {
        return None;
    }
    Some(number as u32)
}

// The job of this mode with these numbers; what was not found has its default.
fn job_with(
    alloc: Global,
    found: &ArgMatches<'_>,
    mode: Mode,
    numbers: Numbers,
) -> Result<Job, AllocError>
    requires mode { IsMode (rows_of (found_of found.now)) mode }
    requires numbers { AreNumbers (rows_of (found_of found.now)) numbers }
    ensures { IfOk result (IsJobOf (rows_of (found_of found.now))) }
{
    Ok(Job {
        mode,
        file: name_of(alloc, value(found, "file"))?,
        costs: name_of(alloc, value(found, "costs"))?,
        entry: name_or(alloc, value(found, "entry"), "main")?,
        workers: 1,
        turns: numbers.turns,
        conflicts: numbers.conflicts,
        input: name_or(alloc, value(found, "input"), "")?,
        case: numbers.case,
        size: numbers.size,
        watch: false,
        table: has_flag(found, "table"),
    })
}

// The value of an option, or the word at a place.
fn value<'a>(found: &ArgMatches<'a>, name: &str) -> Option<&'a str>
    ensures { option_map (λ s. s.now) result ≡ first_of name.now (rows_of (found_of found.now)) }
{
    found.get_str(name)
}

// Whether a flag was found: its value is then `true`.
fn has_flag(found: &ArgMatches<'_>, name: &str) -> bool
    ensures { result ≡ has_flag name.now (rows_of (found_of found.now)) }
{
    match value(found, name) {
        Some(value) => value == "true",
        None => false,
    }
}

// The name of a value, where there is one.
fn name_of(alloc: Global, value: Option<&str>) -> Result<Option<Name>, AllocError>
    ensures { IfOk result (λ name. name ≡ option_copied value.entry) }
{
    match value {
        Some(text) => Ok(Some(Name::new(alloc, text)?)),
        None => Ok(None),
    }
}

// The same, or else that of a default.
fn name_or(alloc: Global, value: Option<&str>, default: &str) -> Result<Name, AllocError>
    ensures { IfOk result (λ name. name ≡ unwrap_or (option_copied value.entry) default.now) }
{
    match value {
        Some(text) => Name::new(alloc, text),
        None => Name::new(alloc, default),
    }
}

fn mode_of(word: &str) -> Option<Mode>
    ensures mode { result ≡ mode_of word.now }
    ensures built { IfSome result (λ mode. IsTrue (is_built mode)) }
{
    match word {
        "squeeze" => Some(Mode::Squeeze),
        "bound" => Some(Mode::Bound),
        "ipet" => Some(Mode::Ipet),
        "blocks" => Some(Mode::Blocks),
        "run" => Some(Mode::Run),
        "print" => Some(Mode::Print),
        "make" => Some(Mode::Make),
        _ => None,
    }
}

// Whether a mode is given a file.
fn has_file(mode: Mode) -> bool
    ensures { result ≡ has_file mode }
{
    !matches!(mode, Mode::Make | Mode::Workout)
}
