//! Answers in words.

use crate::lists::shown;
use board_core::{Cause, End, Shown};
use race_item::Item;
use std::alloc::{AllocError, Global};

/// What a board shows.
pub(crate) fn of_shown(alloc: Global, shown: Shown) -> Result<String, AllocError> {
    let bound = of_cost(alloc, shown.bound)?;
    let best = of_cost(alloc, shown.best)?;
    format!(in alloc; "bound {bound} best {best}")
}

fn of_cost(alloc: Global, cost: Option<u128>) -> Result<String, AllocError> {
    match cost {
        None => String::from_str(alloc, "none"),
        Some(cost) => format!(in alloc; "{cost}"),
    }
}

/// An item, by its number, its prefix and its bound.
pub(crate) fn of_item<'p>(alloc: Global, item: &Item<'p>) -> Result<String, AllocError> {
    let id = item.id();
    let prefix = shown(alloc, item.prefix())?;
    let bound = item.bound();
    format!(in alloc; "item {id} behind {prefix} at most {bound}")
}

/// How a race ended.
pub(crate) fn of_end(end: Option<End>) -> &'static str {
    match end {
        None => "end none",
        Some(End::Done) => "end done",
        Some(End::Spent) => "end spent",
        Some(End::Stalled(Cause::Conflicts)) => "end stalled for conflicts",
        Some(End::Stalled(Cause::Weight)) => "end stalled for weight",
    }
}
