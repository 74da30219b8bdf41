//! Trials of inputs on the first item of a board.

use crate::case::Case;
use crate::lists::{edges, input, push_apart, shown};
use board_core::Board;
use case_plans::Wrong;
use race_item::{Child, Conclusion, Item, Settlement, by_fork, by_path};
use std::alloc::{AllocError, Global};

/// What the split of the first item by an input comes to.
pub(crate) fn forked<'p>(alloc: Global, case: &Case, board: &Board<'p>) -> Result<String, Wrong> {
    let Some(held) = board.items().first() else {
        return Err(Wrong::NoCase);
    };
    let input = input(alloc, case.first)?;
    match by_fork(alloc, &held.item, &input) {
        Ok(settlement) => Ok(told(alloc, settlement)?),
        Err(_) => Err(Wrong::NoMemory),
    }
}

/// What a path and an input settle of the first item.
pub(crate) fn found<'p>(alloc: Global, case: &Case, board: &Board<'p>) -> Result<String, Wrong> {
    let Some(held) = board.items().first() else {
        return Err(Wrong::NoCase);
    };
    let path = edges(alloc, case.edges)?;
    let input = input(alloc, case.first)?;
    match by_path(alloc, &held.item, path.as_slice(), input) {
        Ok(settlement) => Ok(told(alloc, settlement)?),
        Err(_) => Err(Wrong::NoMemory),
    }
}

/// What a settlement concludes.
pub(crate) fn told<'p>(
    alloc: Global,
    settlement: Option<Settlement<'p>>,
) -> Result<String, AllocError> {
    let Some(settlement) = settlement else {
        return String::from_str(alloc, "none");
    };
    match settlement.into_conclusion() {
        Conclusion::Split(children) => told_children(alloc, children.as_slice()),
        Conclusion::Found(_, cost) => format!(in alloc; "found {cost}"),
        _ => String::from_str(alloc, "something else"),
    }
}

fn told_children(alloc: Global, children: &[Child]) -> Result<String, AllocError> {
    let mut text = String::new(alloc);
    for child in children {
        push_apart(&mut text, ", ", told_child(alloc, child)?.as_str())?;
    }
    Ok(text)
}

fn told_child(alloc: Global, child: &Child) -> Result<String, AllocError> {
    let prefix = shown(alloc, child.prefix.as_slice())?;
    let bound = child.bound;
    format!(in alloc; "behind {prefix} at most {bound}")
}
