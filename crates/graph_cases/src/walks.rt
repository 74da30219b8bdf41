//! Lists of edges: whether they follow a plan and keep bounds, and how they go on.

ghost use Rattle.std.specs.Prelude.{◌≡◌, IfOk, length};
ghost use Rattle.flow_laws.specs.Graphs.{graph, edges};

use crate::case::Case;
use crate::lists::{edge, edges, room, shown};
use case_plans::Wrong;
use flow_graph::Plan;
use path_walk::{Next, extend};
use sqlite_items::Items;
use std::alloc::{AllocError, Global};

/// Whether the list follows the plan, and whether it keeps the bounds.
pub(crate) fn judged(alloc: Global, case: &Case, plan: &Plan) -> Result<String, Wrong> {
    let list = edges(alloc, case.edges)?;
    let follows = plan.follows(list.as_slice());
    let keeps = plan.keeps(list.as_slice());
    Ok(format!(in alloc; "follows {follows}, keeps {keeps}")?)
}

/// How the list goes on.
pub(crate) fn extended(alloc: Global, case: &Case, plan: &Plan) -> Result<String, Wrong> {
    let list = edges(alloc, case.edges)?;
    let mut rooms = rooms(alloc, plan, room(case.room)?)?;
    set_limits(case.limits, &mut rooms)?;
    match next(alloc, plan, &list, rooms.as_slice()) {
        Ok(next) => Ok(told(alloc, &next)?),
        Err(wrong) => Err(wrong),
    }
}

// The same room for each edge.
fn rooms(alloc: Global, plan: &Plan, room: u64) -> Result<Items<u64>, Wrong>
    ensures { IfOk result (λ rooms. length rooms ≡ length (edges (graph plan.now.program))) }
{
    let mut rooms = Items::new(alloc);
    for _ in 0..plan.edges() {
        rooms.push(room)?;
    }
    Ok(rooms)
}

fn set_limits(limits: &str, rooms: &mut Items<u64>) -> Result<(), Wrong>
    ensures { IfOk result (λ _. length rooms.new ≡ length rooms.old) }
{
    for limit in limits.split_ascii_whitespace() {
        let (number, most) = limit.split_once(":").ok_or(Wrong::NoCase)?;
        set_limit(edge(number)?, room(most)?, rooms)?;
    }
    Ok(())
}

fn set_limit(e: u16, most: u64, rooms: &mut Items<u64>) -> Result<(), Wrong>
    ensures { IfOk result (λ _. length rooms.new ≡ length rooms.old) }
{
    if e as usize >= rooms.len() {
        return Err(Wrong::NoCase);
    }
    rooms.set(e as usize, most);
    Ok(())
}

fn next(alloc: Global, plan: &Plan, list: &[u16], rooms: &[u64]) -> Result<Next, Wrong>
    requires { length rooms.now ≡ length (edges (graph plan.now.program)) }
{
    if !plan.follows(list) || !plan.keeps(list) {
        return Err(Wrong::NoList);
    }
    match extend(alloc, plan, list, rooms) {
        Ok(next) => Ok(next),
        Err(_) => Err(Wrong::NoMemory),
    }
}

fn told(alloc: Global, next: &Next) -> Result<String, AllocError> {
    match next {
        Next::Long(list) => with(alloc, "long", list.as_slice()),
        Next::Whole(list) => with(alloc, "whole", list.as_slice()),
        Next::Dead(list) => with(alloc, "dead", list.as_slice()),
        Next::Fork(first, second) => forked(alloc, first.as_slice(), second.as_slice()),
    }
}

fn with(alloc: Global, answer: &str, list: &[u16]) -> Result<String, AllocError> {
    let list = shown(alloc, list)?;
    format!(in alloc; "{answer}: {list}")
}

fn forked(alloc: Global, first: &[u16], second: &[u16]) -> Result<String, AllocError> {
    let first = shown(alloc, first)?;
    let second = shown(alloc, second)?;
    format!(in alloc; "fork: {first} and {second}")
}
