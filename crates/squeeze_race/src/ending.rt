//! How the report of a race ends.

ghost use Rattle.std.specs.Prelude.{◌≡◌, ◌<◌, ◌^◌, All, Some, IfOk};
ghost use Rattle.board_core.specs.declared.event.End.TheVariants as end;
ghost use Rattle.race_report.specs.Telling.{race_end, end_by, limit_of};
ghost use Rattle.squeeze_race.specs.Races.{HasEnded};
ghost use Rattle.squeeze_race.specs.Endings.{IsEnding};

use board_core::{Board, Cause, End, shown_values_hold};
use c_input::input_text;
use c_tree::NoMemory;
use input_laws::input_texts_are_of_one_line;
use race_item::Limits;
use report_text::{Last, Spent};
use sqlite_items::Items;
use std::alloc::Global;
use typed_laws::program_is_typed;

/// The end of a race that has ended, as its report tells it.
pub(crate) fn ending<'p>(alloc: Global, board: &Board<'p>, limits: Limits) -> Result<Last, NoMemory>
    requires ended { HasEnded board.now }
    requires limits { board.now.setup.limits ≡ limits }
    ensures { IfOk result (λ last. IsEnding board.now last) }
{
    match board.end() {
        None => unreachable!(),
        Some(End::Done) => done(alloc, board),
        Some(End::Spent) => Ok(inexact(board, Spent::Turns, limits.turns)),
        Some(End::Stalled(Cause::Conflicts)) => {
            Ok(inexact(board, Spent::Conflicts, limits.conflicts))
        }
        Some(End::Stalled(Cause::Weight)) => Ok(inexact(board, Spent::Weight, 262_144)),
    }
}

// Best's cost and the text of its input, or that there is none.
fn done<'p>(alloc: Global, board: &Board<'p>) -> Result<Last, NoMemory>
    requires { race_end board.now ≡ Some end.Done }
    ensures { IfOk result (λ last. IsEnding board.now last) }
{
    let Some((input, cost)) = board.best() else {
        return Ok(Last::Nothing);
    };
    let program = board.rows().plan().program();
    program_is_typed(program);
    input_texts_are_of_one_line();
    let text = input_text(alloc, program, input)?;
    numbers_fit(cost, &text);
    Ok(Last::Exact(cost, Items::from_vec(text)))
}

// It computes nothing: its clauses say which numbers these are by their types.
fn numbers_fit(cost: u128, text: &[u8])
    ensures cost { cost < 2 ^ 128 }
    ensures bytes { All (λ b. b < 2 ^ 8) text.now }
{}

// The bound and the best that stand, and what was spent.
fn inexact<'p>(board: &Board<'p>, spent: Spent, limit: u32) -> Last
    requires ended { race_end board.now ≡ Some (end_by spent) }
    requires limit { limit ≡ limit_of board.now.setup.limits spent }
    ensures { IsEnding board.now result }
{
    shown_values_hold();
    let shown = board.read();
    let Some(bound) = shown.bound else {
        unreachable!();
    };
    Last::Inexact {
        bound,
        best: shown.best,
        spent,
        limit,
    }
}
