//! From texts to the report of a race.

ghost use Rattle.std.specs.Prelude.{◌≡◌, ◌≢◌, ◌≤◌, Option, List, ℕ};
ghost use Rattle.wc_outside.specs.Causes.{Rose};
ghost use Rattle.front_end.specs.declared.status.Status.{Status};
ghost use Rattle.front_end.specs.Files as files;
ghost use Rattle.race_item.specs.RaceLimits.{AreLimits};
ghost use Rattle.squeeze_race.specs.Races.{Raced};
ghost use Rattle.squeeze_race.specs.Texts.{RacedOf, WroteRace};

use crate::squeeze::squeeze_alone;
use board_core::Board;
use flow_graph::Plan;
use front_end::{Halt, Source, Status, front_end, refuse};
use ipet_peak::peak;
use ipet_rows::rows;
use item_turn::Turner;
use race_item::Limits;
use std::alloc::Global;
use wc_outside::{Shelf, Sink};

// Races on a plan with one turner, and writes the report.
fn squeeze_plan<K: Sink>(alloc: Global, plan: &Plan, limits: Limits, out: &mut K) -> Status
    requires { AreLimits limits }
    ensures raced { RacedOf result plan.now.program plan.now.costs limits (K.written out.old) (K.written out.new) }
    ensures write_fault { result ≡ Status.WriteFault → Rose (K.faults out.old) (K.faults out.new) }
    ensures no_write_fault { result ≢ Status.WriteFault → K.faults out.new ≡ K.faults out.old }
    ensures later { K.faults out.old ≤ K.faults out.new }
{
    let Ok(rows) = rows(alloc, plan) else {
        return Status::NoMemory;
    };
    let Ok(peak) = peak(alloc, plan) else {
        return Status::NoMemory;
    };
    let Ok(board) = Board::start(alloc, &rows, &peak, limits) else {
        return Status::NoMemory;
    };
    let mut turner = Turner::new(&rows, limits);
    let (status, _) = squeeze_alone(alloc, board, limits, &mut turner, out);
    status
}

/// Finds the dearest run of the program that these texts give (WCET Squeezing, Knoop et al.), by the race of one
/// turner with these limits: it reads and plans, as `front_end` does, and writes the report of the race; or the line of
/// the first refusal. It takes no lock, and returns. Want of memory may come before any of the lines, and the clause on
/// texts holds where the shelf tells its contents.
pub fn squeeze_texts<S: Shelf, K: Sink>(
    alloc: Global,
    shelf: &mut S,
    source: &Source,
    limits: Limits,
    out: &mut K,
) -> Status
    requires { AreLimits limits }

    // What each status says of what was written.
    ensures wrote { WroteRace result (files.source_of source.now) (S.contents shelf.old) limits
        (K.written out.old) (K.written out.new) }

    // A fault of the shelf or the sink is told only where its count rose, and none is passed over.
    ensures read_fault { result ≡ Status.ReadFault → Rose (S.faults shelf.old) (S.faults shelf.new) }
    ensures write_fault { result ≡ Status.WriteFault → Rose (K.faults out.old) (K.faults out.new) }
    ensures no_read_fault { result ≢ Status.ReadFault → S.faults shelf.new ≡ S.faults shelf.old }
    ensures no_write_fault { result ≢ Status.WriteFault → K.faults out.new ≡ K.faults out.old }
    ensures shelf_later { S.faults shelf.old ≤ S.faults shelf.new }
    ensures sink_later { K.faults out.old ≤ K.faults out.new }
    ensures same { S.contents shelf.new ≡ S.contents shelf.old }
{
    match front_end(alloc, shelf, source) {
        Ok(front) => squeeze_plan(alloc, &front.plan, limits, out),
        Err(Halt::Refused(refusal)) => refuse(alloc, out, &refusal),
        Err(Halt::ReadFault) => Status::ReadFault,
        Err(Halt::NoMemory) => Status::NoMemory,
    }
}
