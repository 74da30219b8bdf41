//! A race of two, step by step.

ghost use Rattle.std.specs.Prelude.{◌≡◌, ◌≢◌, None, IfOk};
ghost use Rattle.board_core.specs.Tickets.{TicketOf};
ghost use Rattle.board_core.specs.Calls.{IsOpenClaim};
ghost use Rattle.board_cases.specs.Claimed.{Claimed};

use crate::case::Case;
use crate::lists::{edges, input, push_apart};
use crate::words::{of_end, of_item, of_shown};
use board_core::{Board, Claim, Shown, Ticket};
use c_tree::Input;
use case_plans::Wrong;
use race_item::{Item, by_fork, by_path};
use std::alloc::Global;

/// What a board answers to these calls: `read`; a claim by 0 and one by 1; the publication of the split of the
/// first claim by the first input; a claim by 1, whether the first input splits its item, and a claim by 0; the
/// publication of what the path and the second input settle of the former; the latter given back; a claim by 0;
/// `end`.
pub(crate) fn raced<'p>(
    alloc: Global,
    case: &Case,
    board: &mut Board<'p>,
) -> Result<String, Wrong> {
    let mut told = String::new(alloc);
    tell(&mut told, of_shown(alloc, board.read())?.as_str())?;
    begin(alloc, case, board, &mut told)?;
    go_on(alloc, case, board, &mut told)?;
    end(alloc, board, &mut told)?;
    Ok(told)
}

fn begin<'p>(
    alloc: Global,
    case: &Case,
    board: &mut Board<'p>,
    told: &mut String,
) -> Result<(), Wrong> {
    let input = input(alloc, case.first)?;
    match claimed(alloc, board, 0, told)? {
        None => Ok(()),
        Some(ticket) => open(alloc, board, ticket, &input, told),
    }
}

fn go_on<'p>(
    alloc: Global,
    case: &Case,
    board: &mut Board<'p>,
    told: &mut String,
) -> Result<(), Wrong> {
    let path = edges(alloc, case.edges)?;
    match claimed(alloc, board, 1, told)? {
        None => Ok(()),
        Some(ticket) => {
            tell_fork(alloc, case, ticket.item(), told)?;
            hold_two(alloc, case, board, ticket, path.as_slice(), told)
        }
    }
}

fn end<'p>(alloc: Global, board: &mut Board<'p>, told: &mut String) -> Result<(), Wrong> {
    claimed(alloc, board, 0, told)?;
    tell(told, of_end(board.end()))
}

fn tell(told: &mut String, piece: &str) -> Result<(), Wrong> {
    push_apart(told, "; ", piece)?;
    Ok(())
}

// A claim, and what it answers.
fn claimed<'p>(
    alloc: Global,
    board: &mut Board<'p>,
    who: u32,
    told: &mut String,
) -> Result<Option<Ticket<'p>>, Wrong>
    ensures { IfOk result (λ o. Claimed board.old board.new who o) }
{
    match board.claim(who)? {
        Claim::Got(ticket) => {
            tell(told, of_item(alloc, ticket.item())?.as_str())?;
            Ok(Some(ticket))
        }
        Claim::Spent => refused(told, "spent"),
        Claim::Busy => refused(told, "busy"),
        Claim::Stalled => refused(told, "stalled"),
        Claim::Done => refused(told, "done"),
    }
}

fn refused<'p>(told: &mut String, word: &str) -> Result<Option<Ticket<'p>>, Wrong>
    ensures { IfOk result (λ o. o ≡ None) }
{
    tell(told, word)?;
    Ok(None)
}

// The first claim is held while another one is refused; then it is split.
fn open<'p>(
    alloc: Global,
    board: &mut Board<'p>,
    ticket: Ticket<'p>,
    input: &Input,
    told: &mut String,
) -> Result<(), Wrong>
    requires { IsOpenClaim board.old ticket }
{
    match claimed(alloc, board, 1, told) {
        Ok(None) => {
            let shown = split(alloc, board, ticket, input);
            tell_settled(alloc, told, shown)
        }
        Ok(Some(_)) => Err(Wrong::NoRefusal),
        Err(wrong) => Err(wrong),
    }
}

// What the board shows after the split of the claim by an input, or none where it has no such split and is given back.
fn split<'p>(
    alloc: Global,
    board: &mut Board<'p>,
    ticket: Ticket<'p>,
    input: &Input,
) -> Result<Option<Shown>, Wrong>
    requires { IsOpenClaim board.old ticket }
{
    match by_fork(alloc, ticket.item(), input) {
        Ok(Some(settlement)) => Ok(Some(board.publish(ticket, settlement))),
        Ok(None) => {
            board.give_back(ticket);
            Ok(None)
        }
        Err(_) => Err(Wrong::NoMemory),
    }
}

// Whether the first input splits the item at a fork.
fn tell_fork<'p>(
    alloc: Global,
    case: &Case,
    item: &Item<'p>,
    told: &mut String,
) -> Result<(), Wrong> {
    let input = input(alloc, case.first)?;
    match by_fork(alloc, item, &input)? {
        None => tell(told, "no fork"),
        Some(_) => tell(told, "a fork"),
    }
}

// The second claim is settled by a path while a third one is held, which is given back.
fn hold_two<'p>(
    alloc: Global,
    case: &Case,
    board: &mut Board<'p>,
    ticket: Ticket<'p>,
    path: &[u16],
    told: &mut String,
) -> Result<(), Wrong>
    requires { IsOpenClaim board.old ticket }
{
    match claimed(alloc, board, 0, told) {
        Ok(None) => Ok(()),
        Ok(Some(other)) => match input(alloc, case.second) {
            Ok(input) => settle_one(alloc, board, ticket, other, path, input, told),
            Err(wrong) => Err(wrong),
        },
        Err(wrong) => Err(wrong),
    }
}

fn settle_one<'p>(
    alloc: Global,
    board: &mut Board<'p>,
    ticket: Ticket<'p>,
    other: Ticket<'p>,
    path: &[u16],
    input: Input,
    told: &mut String,
) -> Result<(), Wrong>
    requires open { IsOpenClaim board.old ticket }
    requires held { IsOpenClaim board.old other }
    requires apart { ticket.item.id ≢ other.item.id }
{
    let settled = find(alloc, board, ticket, path, input);
    let back = board.give_back(other);
    tell_settled(alloc, told, settled)?;
    tell(told, of_shown(alloc, back)?.as_str())
}

// What the board shows after the claim is settled by a path, or none where it is not and is given back.
fn find<'p>(
    alloc: Global,
    board: &mut Board<'p>,
    ticket: Ticket<'p>,
    path: &[u16],
    input: Input,
) -> Result<Option<Shown>, Wrong>
    requires { IsOpenClaim board.old ticket }
    ensures { (t : TicketOf) → IsOpenClaim board.old t → ticket.entry.item.id ≢ t.item.id → IsOpenClaim board.new t }
{
    match by_path(alloc, ticket.item(), path, input) {
        Ok(Some(settlement)) => Ok(Some(board.publish(ticket, settlement))),
        Ok(None) => {
            board.give_back(ticket);
            Ok(None)
        }
        Err(_) => Err(Wrong::NoMemory),
    }
}

fn tell_settled(
    alloc: Global,
    told: &mut String,
    settled: Result<Option<Shown>, Wrong>,
) -> Result<(), Wrong> {
    match settled {
        Ok(Some(shown)) => tell(told, of_shown(alloc, shown)?.as_str()),
        Ok(None) => tell(told, "none"),
        Err(wrong) => Err(wrong),
    }
}
