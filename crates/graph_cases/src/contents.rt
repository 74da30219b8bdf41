//! What the nodes of plans do.

ghost use Rattle.std.specs.Prelude.{◌≡◌};

use crate::graphs::block;
use crate::lists::push_apart;
use c_tree::{BlockName, Ty};
use case_plans::Wrong;
use flow_graph::Plan;
use node_contents::{Content, Contents, contents_of};
use std::alloc::{AllocError, Global};

/// What each node does.
pub(crate) fn contents(alloc: Global, plan: &Plan) -> Result<String, Wrong> {
    match contents_of(alloc, plan) {
        Ok(contents) => listed(alloc, plan, &contents),
        Err(_) => Err(Wrong::NoMemory),
    }
}

fn listed(alloc: Global, plan: &Plan, contents: &Contents) -> Result<String, Wrong>
    requires { contents.now ≡ plan.now }
{
    let mut text = String::new(alloc);
    for n in 0..plan.nodes() {
        push_apart(&mut text, ", ", content(alloc, contents.of(n))?.as_str())?;
    }
    Ok(text)
}

fn content(alloc: Global, content: Content) -> Result<String, AllocError> {
    match content {
        Content::Entry => String::from_str(alloc, "entry"),
        Content::Exit => String::from_str(alloc, "exit"),
        Content::Simple(statements) => simple(alloc, statements.len()),
        Content::Test(_) => String::from_str(alloc, "test"),
        Content::Jump => String::from_str(alloc, "jump"),
        Content::Give(value) => String::from_str(alloc, given(value.is_some())),
        Content::Enter(_, locals, given) => entered(alloc, locals.len(), given.len()),
        Content::Missing => String::from_str(alloc, "missing"),
        Content::Land(_, ty, call) => landed(alloc, ty, call),
    }
}

fn simple(alloc: Global, count: usize) -> Result<String, AllocError> {
    format!(in alloc; "simple {count}")
}

fn given(value: bool) -> &'static str {
    if value { "give value" } else { "give" }
}

fn entered(alloc: Global, locals: usize, given: usize) -> Result<String, AllocError> {
    format!(in alloc; "enter {locals} {given}")
}

fn landed(alloc: Global, ty: Option<Ty>, call: BlockName) -> Result<String, AllocError> {
    let ty = name_of(ty);
    let call = block(alloc, call)?;
    format!(in alloc; "land {ty} {call}")
}

fn name_of(ty: Option<Ty>) -> &'static str {
    match ty {
        None => "void",
        Some(Ty::Int) => "int",
        Some(Ty::Unsigned) => "unsigned",
    }
}
