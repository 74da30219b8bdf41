//! The race of one worker and its report.

ghost use Rattle.std.specs.Prelude.{◌≡◌, ◌≢◌, ◌≤◌, ◌⊎◌, [], Some, false, OnOk, IfErr};
ghost use Rattle.wc_outside.specs.Causes.{Rose};
ghost use Rattle.front_end.specs.declared.status.Status.{Status};
ghost use Rattle.board_core.specs.declared.event.End.TheVariants as end;
ghost use Rattle.race_report.specs.Telling.{IsRace, race_end};
ghost use Rattle.squeeze_race.specs.Races.{HasEnded, NoneTaken, Raced};
ghost use Rattle.squeeze_race.specs.Endings.{SomeFront, WroteFront, WroteFrontPart, WroteEnd, WroteEndPart, WroteUpTo, Counted};

use crate::cut::Cut;
use crate::ending::ending;
use crate::race::race;
use board_core::{Board, End};
use front_end::{Status, put_lines};
use race_item::{Limits, Refuter};
use report_text::{end_lines, front_lines};
use std::alloc::Global;
use wc_outside::Sink;

// Writes the first lines: the number of block copies and the optimum.
fn write_front<'p, K: Sink>(alloc: Global, board: &Board<'p>, out: &mut K) -> Result<(), Cut>
    requires new { board.now.entries ≡ [] }
    ensures front { SomeFront board.now.setup.rows.plan }
    ensures written { OnOk result (WroteFront board.now.setup.rows.plan (K.written out.old) (K.written out.new)) }
    ensures part { IfErr result (λ cut. WroteUpTo cut
        (WroteFrontPart board.now.setup.rows.plan (K.written out.old) (K.written out.new))
        (K.written out.old) (K.written out.new)) }
    ensures counted { IfErr result (λ cut. Counted cut (K.faults out.old) (K.faults out.new)) }
    ensures kept { OnOk result (K.faults out.new ≡ K.faults out.old) }
    ensures later { K.faults out.old ≤ K.faults out.new }
{
    let Some(ipet) = board.read().bound else {
        unreachable!();
    };
    let Ok(text) = front_lines(alloc, board.rows().plan().copies(), ipet) else {
        return Err(Cut::NoMemory);
    };
    match put_lines(out, &text) {
        Ok(()) => Ok(()),
        Err(_) => Err(Cut::WriteFault),
    }
}

// Writes the end.
fn write_end<'p, K: Sink>(
    alloc: Global,
    board: &Board<'p>,
    limits: Limits,
    out: &mut K,
) -> Result<(), Cut>
    requires ended { HasEnded board.now }
    requires limits { board.now.setup.limits ≡ limits }
    ensures written { OnOk result (WroteEnd board.now (K.written out.old) (K.written out.new)) }
    ensures part { IfErr result (λ cut. WroteUpTo cut (WroteEndPart board.now (K.written out.old) (K.written out.new))
        (K.written out.old) (K.written out.new)) }
    ensures counted { IfErr result (λ cut. Counted cut (K.faults out.old) (K.faults out.new)) }
    ensures kept { OnOk result (K.faults out.new ≡ K.faults out.old) }
    ensures later { K.faults out.old ≤ K.faults out.new }
{
    let Ok(last) = ending(alloc, board, limits) else {
        return Err(Cut::NoMemory);
    };
    let Ok(text) = end_lines(alloc, &last) else {
        return Err(Cut::NoMemory);
    };
    match put_lines(out, &text) {
        Ok(()) => Ok(()),
        Err(_) => Err(Cut::WriteFault),
    }
}

// The status of a race that has ended and whose report was written.
fn status_of_end<'p>(board: &Board<'p>) -> Status
    ensures whole { result ≡ Status.Whole → race_end board.now ≡ Some end.Done }
    ensures inexact { result ≡ Status.Inexact → race_end board.now ≢ Some end.Done }
    ensures only { result ≡ Status.Whole ⊎ result ≡ Status.Inexact }
{
    match board.end() {
        Some(End::Done) => Status::Whole,
        Some(End::Spent | End::Stalled(_)) | None => Status::Inexact,
    }
}

// Writes the first lines, races, and writes the end.
fn squeezed<'p, R: Refuter<'p>, K: Sink>(
    alloc: Global,
    board: &mut Board<'p>,
    limits: Limits,
    refuter: &mut R,
    out: &mut K,
) -> Status
    requires new { board.old.entries ≡ [] }
    requires limits { board.old.setup.limits ≡ limits }
    requires rows { R.rows refuter.old ≡ board.old.setup.rows }
    requires limit { R.limit refuter.old ≡ limits.conflicts }
    ensures raced { Raced result false board.new (K.written out.old) (K.written out.new) }
    ensures untaken { NoneTaken board.new }
    ensures setup { board.new.setup ≡ board.old.setup }
    ensures write_fault { result ≡ Status.WriteFault → Rose (K.faults out.old) (K.faults out.new) }
    ensures no_write_fault { result ≢ Status.WriteFault → K.faults out.new ≡ K.faults out.old }
    ensures later { K.faults out.old ≤ K.faults out.new }
{
    if let Err(cut) = write_front(alloc, board, out) {
        return cut.status();
    }
    if race(alloc, board, refuter).is_err() {
        return Status::NoMemory;
    }
    match write_end(alloc, board, limits, out) {
        Ok(()) => status_of_end(board),
        Err(cut) => cut.status(),
    }
}

/// Works on a board of no entry with one refuter, and writes the report: the lines `blocks N` and `ipet N` before the
/// race; then it claims and settles, with the number 0, until the race has ended (WCET Squeezing, Knoop et al.); and
/// then the end. It hands the board back, on which no item is taken.
///
/// It answers `Whole` or `Inexact` where the report was written whole, the first exactly where the race is done;
/// `WriteFault` only where the sink's count of faults rose; and `NoMemory`. At these two a prefix of such a report was
/// written, or of its first lines.
pub fn squeeze_alone<'p, R: Refuter<'p>, K: Sink>(
    alloc: Global,
    board: Board<'p>,
    limits: Limits,
    refuter: &mut R,
    out: &mut K,
) -> (Status, Board<'p>)
    // The board is new; the limits are its own; and the refuter has its rows and its limit of conflicts.
    requires new { board.entries ≡ [] }
    requires limits { board.setup.limits ≡ limits }
    requires rows { R.rows refuter.old ≡ board.setup.rows }
    requires limit { R.limit refuter.old ≡ limits.conflicts }

    // What each status says of the board and of what was written.
    ensures raced { Raced result.0 false result.1 (K.written out.old) (K.written out.new) }

    // The board's entries are a race from the same start, and no item of it is taken.
    ensures race { IsRace result.1 }
    ensures setup { result.1.setup ≡ board.entry.setup }
    ensures untaken { NoneTaken result.1 }

    // A fault of the sink is told only where its count rose, and none is passed over.
    ensures write_fault { result.0 ≡ Status.WriteFault → Rose (K.faults out.old) (K.faults out.new) }
    ensures no_write_fault { result.0 ≢ Status.WriteFault → K.faults out.new ≡ K.faults out.old }
    ensures later { K.faults out.old ≤ K.faults out.new }
{
    let mut board = board;
    let status = squeezed(alloc, &mut board, limits, refuter, out);
    board.rows();
    board.journal();
    (status, board)
}
