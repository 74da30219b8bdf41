//! The mode `squeeze`, and the part of it that works on a board.

ghost use Rattle.std.specs.Prelude.{◌≡◌, ◌≢◌, ◌≤◌, ◌<◌, [], false, length, All};
ghost use Rattle.wc_outside.specs.Causes.{Rose};
ghost use Rattle.word_line.specs.declared.job.Mode.{Mode};
ghost use Rattle.word_line.specs.Jobs.{IsJob};
ghost use Rattle.front_end.specs.declared.status.Status.{Status};
ghost use Rattle.race_item.specs.RaceLimits.{AreLimits};
ghost use Rattle.race_report.specs.Telling.{IsRace};
ghost use Rattle.squeeze_race.specs.Races.{NoneTaken, Raced};
ghost use Rattle.squeeze_top.specs.Answers as spec;
ghost use Rattle.squeeze_top.specs.Written.{Wrote};

use crate::source::source_of;
use board_core::Board;
use front_end::Status;
use race_item::{Limits, Refuter};
use squeeze_race::{squeeze_alone, squeeze_texts};
use std::alloc::Global;
use std::sync::Wait;
use std::thread::Threads;
use wc_outside::{Gate, Shelf, Sink};
use word_line::Job;

// The limits of a job's race.
fn limits_of(job: &Job) -> Limits
    requires { IsJob job.now }
    ensures limits { result ≡ spec.limits_of job.now }
    ensures within { AreLimits result }
{
    Limits {
        turns: job.turns,
        conflicts: job.conflicts,
    }
}

/// Finds the dearest run of the job's program, as far as its limits go, and writes the report of the race; or the line
/// of the first refusal.
pub(crate) fn squeeze_mode<S: Shelf, K: Sink>(
    alloc: Global,
    job: &Job,
    shelf: &mut S,
    out: &mut K,
) -> Status
    requires job { IsJob job.now }
    requires squeezes { job.now.mode ≡ Mode.Squeeze }
    ensures wrote { Wrote result job.now (S.contents shelf.old) (K.written out.old) (K.written out.new) }
    ensures read_fault { result ≡ Status.ReadFault → Rose (S.faults shelf.old) (S.faults shelf.new) }
    ensures write_fault { result ≡ Status.WriteFault → Rose (K.faults out.old) (K.faults out.new) }
    ensures no_read_fault { result ≢ Status.ReadFault → S.faults shelf.new ≡ S.faults shelf.old }
    ensures no_write_fault { result ≢ Status.WriteFault → K.faults out.new ≡ K.faults out.old }
    ensures shelf_later { S.faults shelf.old ≤ S.faults shelf.new }
    ensures sink_later { K.faults out.old ≤ K.faults out.new }
    ensures same { S.contents shelf.new ≡ S.contents shelf.old }
{
    match &job.file {
        Some(file) => squeeze_texts(alloc, shelf, &source_of(job, file), limits_of(job), out),
        None => unreachable!(),
    }
}

/// Works on a new board by the first refuter, and writes the report of the race; no watch is written yet. `rt` and
/// `gate` are for several workers, which there are none of today; so this call owes no return by its contract.
///
/// It answers `Whole` or `Inexact` where the report was written whole, the first exactly where the race is done;
/// `WriteFault` only where the sink's count of faults rose; and `NoMemory`. At these two a prefix of such a report was
/// written, or of its first lines. At each of them it hands the board back, on which no item is taken.
pub fn squeeze_on<'p, T: Threads + Wait + Sync, R: Refuter<'p> + Send, K: Sink, G: Gate + Sync>(
    _rt: &T,
    alloc: Global,
    board: Board<'p>,
    refuters: &mut [R],
    job: &Job,
    out: &mut K,
    _gate: &G,
) -> (Status, Board<'p>)
    // The board has no entry, and its limits are those of the job.
    requires job { IsJob job.now }
    requires new { board.entries ≡ [] }
    requires limits { board.setup.limits ≡ spec.limits_of job.now }

    // There is a refuter, and each one has the board's rows and its limit of conflicts.
    requires some { 0 < length refuters.old }
    requires rows { All (λ r. R.rows r ≡ board.setup.rows) refuters.old }
    requires conflicts { All (λ r. R.limit r ≡ job.now.conflicts) refuters.old }

    // What each status says of the board and of what was written.
    ensures raced { Raced result.0 false result.1 (K.written out.old) (K.written out.new) }

    // The board's entries are a race from the same start, and no item of it is taken.
    ensures race { IsRace result.1 }
    ensures setup { result.1.setup ≡ board.entry.setup }
    ensures untaken { NoneTaken result.1 }

    // A fault of the sink is told only where its count rose, and none is passed over.
    ensures write_fault { result.0 ≡ Status.WriteFault → Rose (K.faults out.old) (K.faults out.new) }
    ensures no_write_fault { result.0 ≢ Status.WriteFault → K.faults out.new ≡ K.faults out.old }
    ensures later { K.faults out.old ≤ K.faults out.new }
{
    squeeze_alone(alloc, board, limits_of(job), &mut refuters[0], out)
}
