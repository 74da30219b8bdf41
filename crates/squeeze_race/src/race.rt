//! A race of one.

ghost use Rattle.std.specs.Prelude.{◌≡◌, OnOk};
ghost use Rattle.board_core.specs.Calls.{IsOpenClaim};
ghost use Rattle.squeeze_race.specs.Races.{HasEnded, NoneTaken, IsTakenAlone, HasSettledOne};

use board_core::{Board, Claim, Ticket};
use c_tree::NoMemory;
use race_item::Refuter;
use std::alloc::Global;

/// Claims and settles until the race has ended. Want of memory leaves no item taken.
pub(crate) fn race<'p, R: Refuter<'p>>(
    alloc: Global,
    board: &mut Board<'p>,
    refuter: &mut R,
) -> Result<(), NoMemory>
    requires untaken { NoneTaken board.old }
    requires rows { R.rows refuter.old ≡ board.old.setup.rows }
    requires limit { R.limit refuter.old ≡ board.old.setup.limits.conflicts }
    ensures ended { OnOk result (HasEnded board.new) }
    ensures untaken { NoneTaken board.new }
    ensures setup { board.new.setup ≡ board.old.setup }
{
    while let Claim::Got(ticket) = board.claim(0)? {
        settle(alloc, board, refuter, ticket)?;
    }
    Ok(())
}

// A turn on a claimed item, and its publication; or its return, where memory is short.
fn settle<'p, R: Refuter<'p>>(
    alloc: Global,
    board: &mut Board<'p>,
    refuter: &mut R,
    ticket: Ticket<'p>,
) -> Result<(), NoMemory>
    requires claimed { IsOpenClaim board.old ticket }
    requires alone { IsTakenAlone board.old ticket }
    requires rows { R.rows refuter.old ≡ board.old.setup.rows }
    requires limit { R.limit refuter.old ≡ board.old.setup.limits.conflicts }
    ensures settled { OnOk result (HasSettledOne board.old board.new) }
    ensures untaken { NoneTaken board.new }
    ensures rows { R.rows refuter.new ≡ R.rows refuter.old }
    ensures limit { R.limit refuter.new ≡ R.limit refuter.old }
    ensures setup { board.new.setup ≡ board.old.setup }
{
    match refuter.turn(alloc, ticket.item()) {
        Ok(settled) => {
            board.publish(ticket, settled);
            Ok(())
        }
        Err(NoMemory) => {
            board.give_back(ticket);
            Err(NoMemory)
        }
    }
}
