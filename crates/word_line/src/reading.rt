//! From words to a job.

ghost use Rattle.std.specs.Prelude.{◌≡◌, ◌≢◌, ◌⊎◌, List, ℕ, [], IsTrue, map, option_map, IfOk, IfSome, IfNone, IsErrOf};
ghost use Rattle.clap.specs.Faults.{fault_of};
ghost use Rattle.clap.specs.Matches.{found_of};
ghost use Rattle.clap.specs.Simple.{matches_of};
ghost use Rattle.clap.specs.Walk.{rows_of, first_of};
ghost use Rattle.word_line.specs.Command as spec;
ghost use Rattle.word_line.specs.declared.job.Job.{Job};
ghost use Rattle.word_line.specs.Words.{AskFor, IsJobOf};
ghost use Rattle.word_line.specs.Jobs.{IsJob};

use crate::Job;
use crate::command::command;
use crate::found::job_of;
use clap::ArgMatches;
use clap::error::ErrorKind;
use std::alloc::{AllocError, Global};

/// Why words are no job.
#[derive(Clone, Copy, Debug, PartialEq, Eq)]
pub enum WordFault {
    /// The words ask for no job.
    Refused,
    /// Want of memory.
    NoMemory,
}

impl From<AllocError> for WordFault {
    ghost use Rattle.std.specs.Prelude.{◌≡◌};
    ghost use Rattle.word_line.specs.declared.reading.WordFault.TheVariants.{NoMemory};

    ghost from_gives = { λ _ e. e ≡ NoMemory };

    fn from(_: AllocError) -> WordFault {
        WordFault::NoMemory
    }
}

/// Words ask for one job, or for none.
pub fn one_job()
    ensures one { (words : List (List ℕ)) (a b : Job) → AskFor words a → AskFor words b → a ≡ b }
    ensures or_none { (words : List (List ℕ)) → ((job : Job) × AskFor words job)
        ⊎ ((job : Job) → ¬ (AskFor words job)) }
{}

/// The job that the words ask for, as `clap` reads them: the mode, which is one that is built; its file, except for
/// `make`; options with one value each, `--costs`, `--entry`, `--input`, `--turns`, `--conflicts`, `--case` and
/// `--size`; and the flag `--table`. A number is decimal, without a sign or a leading zero, and within its limits.
/// `Refused` comes exactly where the words ask for no job; `NoMemory` may come in place of any answer.
pub fn words(alloc: Global, words: &[&str]) -> Result<Job, WordFault>
    ensures asked { IfOk result (λ job. AskFor (map (λ w. w.now) words.now) job) }
    ensures kept { IfOk result IsJob }
    ensures refused { IsErrOf result WordFault.Refused → (job : Job) → ¬ (AskFor (map (λ w. w.now) words.now) job) }
{
    let found = found_in(alloc, words)?;
    job_of(alloc, &found)
}

// What a parse finds in the words.
fn found_in<'w>(alloc: Global, words: &'w [&'w str]) -> Result<ArgMatches<'w>, WordFault>
    ensures parsed { IfOk result (λ found. fault_of spec.command (map (λ w. w.now) words.now) ≡ []) }
    ensures found { IfOk result (λ found. rows_of (found_of found)
        ≡ matches_of spec.command (map (λ w. w.now) words.now)) }
    ensures refused { IsErrOf result WordFault.Refused → fault_of spec.command (map (λ w. w.now) words.now) ≢ [] }
{
    let command = command(alloc)?;
    match command.try_get_matches_from(words) {
        Ok(found) => Ok(found),
        Err(error) => Err(fault_of(error.kind())),
    }
}

// What a parse that failed so says of the words.
fn fault_of(kind: ErrorKind) -> WordFault
    ensures refused { result ≡ WordFault.Refused → kind ≢ ErrorKind.OutOfMemory }
{
    match kind {
        ErrorKind::OutOfMemory => WordFault::NoMemory,
        _ => WordFault::Refused,
    }
}
