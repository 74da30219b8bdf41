//! A race of one.

ghost use Rattle.std.specs.Prelude.{◌≡◌, ◌<◌};
ghost use Rattle.race_item.specs.RaceLimits.{AreLimits};
ghost use Rattle.board_core.specs.Calls.{IsOpenClaim};

use board_core::{Board, Cause, Claim, End, Event, Ticket};
use case_plans::Wrong;
use ipet_rows::SoundRows;
use item_turn::Turner;
use race_item::{Limits, Refuter};
use std::alloc::Global;

/// How a race of one turner on this new board ends.
pub(crate) fn told<'p>(
    alloc: Global,
    call: &str,
    rows: &'p SoundRows<'p>,
    limits: Limits,
    board: &mut Board<'p>,
) -> Result<String, Wrong>
    requires limits { AreLimits limits }
    requires same { board.old.setup.rows ≡ rows.now }
    requires named { board.old.setup.limits ≡ limits }
{
    let mut turner = Turner::new(rows, limits);
    race(alloc, board, &mut turner, limits.turns)?;
    match call {
        "race" => ended(alloc, board),
        "turns" => with_turns(alloc, board),
        _ => Err(Wrong::NoCase),
    }
}

// Claims and settles until there is nothing to claim.
fn race<'p, R: Refuter<'p>>(
    alloc: Global,
    board: &mut Board<'p>,
    refuter: &mut R,
    turns: u32,
) -> Result<(), Wrong>
    requires rows { R.rows refuter.old ≡ board.old.setup.rows }
    requires limit { R.limit refuter.old ≡ board.old.setup.limits.conflicts }
{
    for _ in 0..turns {
        match board.claim(0)? {
            Claim::Got(ticket) => settle(alloc, board, refuter, ticket)?,
            Claim::Spent | Claim::Busy | Claim::Stalled | Claim::Done => return Ok(()),
        }
    }
    Ok(())
}

fn settle<'p, R: Refuter<'p>>(
    alloc: Global,
    board: &mut Board<'p>,
    refuter: &mut R,
    ticket: Ticket<'p>,
) -> Result<(), Wrong>
    requires claimed { IsOpenClaim board.old ticket }
    requires rows { R.rows refuter.old ≡ board.old.setup.rows }
    requires limit { R.limit refuter.old ≡ board.old.setup.limits.conflicts }
    ensures rows { R.rows refuter.new ≡ R.rows refuter.old }
    ensures limit { R.limit refuter.new ≡ R.limit refuter.old }
    ensures setup { board.new.setup ≡ board.old.setup }
{
    let settled = refuter.turn(alloc, ticket.item())?;
    board.publish(ticket, settled);
    Ok(())
}

fn ended<'p>(alloc: Global, board: &Board<'p>) -> Result<String, Wrong> {
    let end = of_end(board.end());
    match board.best() {
        None => Ok(format!(in alloc; "{end} none")?),
        Some((_, cost)) => Ok(format!(in alloc; "{end} {cost}")?),
    }
}

fn with_turns<'p>(alloc: Global, board: &Board<'p>) -> Result<String, Wrong> {
    let text = ended(alloc, board)?;
    let turns = settled(board.journal());
    Ok(format!(in alloc; "{text} after {turns} turns")?)
}

// How many turns the journal has settled.
fn settled(journal: &[Event]) -> usize {
    journal.iter().filter(|event| is_settling(event)).count()
}

fn is_settling(event: &Event) -> bool {
    match event {
        Event::Claim { .. } | Event::Return { .. } | Event::Reopen => false,
        _ => true,
    }
}

fn of_end(end: Option<End>) -> &'static str {
    match end {
        None => "going on",
        Some(End::Done) => "Done",
        Some(End::Spent) => "Spent",
        Some(End::Stalled(Cause::Conflicts)) => "Stalled by conflicts",
        Some(End::Stalled(Cause::Weight)) => "Stalled by weight",
    }
}
