//! Edges that leave nodes, where loop copies stand, calls of landings, and what edges do to loops.

use crate::lists::push_apart;
use c_tree::BlockName;
use case_plans::Wrong;
use flow_graph::{Outs, Plan, Span, Touch};
use std::alloc::{AllocError, Global};

/// The edges that leave each node.
pub(crate) fn leaving(alloc: Global, plan: &Plan) -> Result<String, Wrong> {
    let mut text = String::new(alloc);
    for n in 0..plan.nodes() {
        push_apart(&mut text, " ", outs(alloc, plan.outs(n))?.as_str())?;
    }
    Ok(text)
}

fn outs(alloc: Global, outs: Outs) -> Result<String, AllocError> {
    match outs {
        Outs::Nowhere => String::from_str(alloc, "-"),
        Outs::One(e) => format!(in alloc; "{e}"),
        Outs::Two(yes, no) => format!(in alloc; "{yes}/{no}"),
    }
}

/// Where each loop copy stands.
pub(crate) fn spans(alloc: Global, plan: &Plan) -> Result<String, Wrong> {
    if plan.spans().is_empty() {
        return Ok(String::from_str(alloc, "no loop")?);
    }
    let mut text = String::new(alloc);
    for span in plan.spans() {
        push_apart(&mut text, ", ", place(alloc, span)?.as_str())?;
    }
    Ok(text)
}

fn place(alloc: Global, span: &Span) -> Result<String, AllocError> {
    let from = span.from;
    let past = span.past;
    let test = span.test;
    format!(in alloc; "{from}-{past} at {test}")
}

/// The calls of landings.
pub(crate) fn calls(alloc: Global, plan: &Plan) -> Result<String, Wrong> {
    let mut text = String::new(alloc);
    for n in 0..plan.nodes() {
        push_apart(&mut text, " ", call(alloc, plan.call(n))?.as_str())?;
    }
    Ok(text)
}

fn call(alloc: Global, call: Option<BlockName>) -> Result<String, AllocError> {
    match call {
        None => String::from_str(alloc, "-"),
        Some(name) => block(alloc, name),
    }
}

/// The function and the number of a block.
pub(crate) fn block(alloc: Global, name: BlockName) -> Result<String, AllocError> {
    let func = name.func;
    let number = name.number;
    format!(in alloc; "{func}:{number}")
}

/// What each edge does to loops.
pub(crate) fn touches(alloc: Global, plan: &Plan) -> Result<String, Wrong> {
    let mut text = String::new(alloc);
    for e in 0..plan.edges() as u16 {
        push_apart(&mut text, " ", row(alloc, plan.touches(e))?.as_str())?;
    }
    Ok(text)
}

fn row(alloc: Global, touches: &[Touch]) -> Result<String, AllocError> {
    if touches.is_empty() {
        return String::from_str(alloc, "-");
    }
    let mut text = String::new(alloc);
    for next in touches {
        text.push_str(touch(alloc, *next)?.as_str())?;
    }
    Ok(text)
}

fn touch(alloc: Global, touch: Touch) -> Result<String, AllocError> {
    match touch {
        Touch::Enters(number, turns) => format!(in alloc; ">{number}:{turns}"),
        Touch::Turns(number) => format!(in alloc; "+{number}"),
    }
}
