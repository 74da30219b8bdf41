//! The lines of refusals.

ghost use Rattle.std.specs.Prelude.{◌≡◌, IfOk};
ghost use Rattle.front_end.specs.Lines as spec;

use crate::refusal::{PlanRefusal, ProgramRefusal, Refusal, TableRefusal};
use c_faults::{CheckRefusal, Fault};
use c_tree::Name;
use itoa::Buffer;
use std::alloc::{AllocError, Global};

/// The line of a refusal.
pub(crate) fn line_of(alloc: Global, refusal: &Refusal) -> Result<Vec<u8>, AllocError>
    ensures { IfOk result (λ line. line.items ≡ spec.refusal_line refusal.now) }
{
    match refusal {
        Refusal::Program(refusal) => program_line(alloc, refusal),
        Refusal::Input => Vec::from_slice(alloc, b"input refused\n"),
        Refusal::Table(refusal) => table_line(alloc, refusal),
        Refusal::Plan(refusal) => plan_line(alloc, refusal),
    }
}

fn program_line(alloc: Global, refusal: &ProgramRefusal) -> Result<Vec<u8>, AllocError>
    ensures { IfOk result (λ line. line.items ≡ spec.program_line refusal.now) }
{
    match refusal {
        ProgramRefusal::Size => Vec::from_slice(alloc, b"program size\n"),
        ProgramRefusal::Byte { at } => place_line(alloc, b"token Byte", *at),
        ProgramRefusal::Comment { at } => place_line(alloc, b"token Comment", *at),
        ProgramRefusal::Number { at } => place_line(alloc, b"token Number", *at),
        ProgramRefusal::Directive { at } => place_line(alloc, b"token Directive", *at),
        ProgramRefusal::Syntax { at } => place_line(alloc, b"parse Syntax", *at),
        ProgramRefusal::Depth { at } => place_line(alloc, b"parse Depth", *at),
        ProgramRefusal::Check(refusal) => check_line(alloc, *refusal),
    }
}

fn check_line(alloc: Global, refusal: CheckRefusal) -> Result<Vec<u8>, AllocError>
    ensures { IfOk result (λ line. line.items ≡ spec.check_line refusal) }
{
    let at = refusal.at;
    match refusal.fault {
        Fault::NoName => place_line(alloc, b"check NoName", at),
        Fault::Twice => place_line(alloc, b"check Twice", at),
        Fault::Kind => place_line(alloc, b"check Kind", at),
        Fault::Arity => place_line(alloc, b"check Arity", at),
        Fault::NoValue => place_line(alloc, b"check NoValue", at),
        Fault::Const => place_line(alloc, b"check Const", at),
        Fault::Stray => place_line(alloc, b"check Stray", at),
        Fault::NoBound => place_line(alloc, b"check NoBound", at),
        Fault::BoundRange => place_line(alloc, b"check BoundRange", at),
        Fault::NoEntry => place_line(alloc, b"check NoEntry", at),
        Fault::LaterCall => place_line(alloc, b"check LaterCall", at),
        Fault::ArrayLength => place_line(alloc, b"check ArrayLength", at),
        Fault::Inputs => place_line(alloc, b"check Inputs", at),
        Fault::NoInit => place_line(alloc, b"check NoInit", at),
        Fault::Span => place_line(alloc, b"check Span", at),
    }
}

// What is wrong with the program, and its place.
fn place_line(alloc: Global, name: &[u8], at: u32) -> Result<Vec<u8>, AllocError>
    ensures { IfOk result (λ line. line.items ≡ spec.place_line name.now at) }
{
    let mut buffer = Buffer::new();
    let mut line = Vec::from_slice(alloc, b"program ")?;
    line.extend_from_slice(name)?;
    line.extend_from_slice(b" at ")?;
    line.extend_from_slice(buffer.format(at).as_bytes())?;
    line.extend_from_slice(b"\n")?;
    Ok(line)
}

fn table_line(alloc: Global, refusal: &TableRefusal) -> Result<Vec<u8>, AllocError>
    ensures { IfOk result (λ line. line.items ≡ spec.table_line refusal.now) }
{
    match refusal {
        TableRefusal::Size => Vec::from_slice(alloc, b"costs size\n"),
        TableRefusal::NotToml => Vec::from_slice(alloc, b"costs NotToml\n"),
        TableRefusal::Version => Vec::from_slice(alloc, b"costs Version\n"),
        TableRefusal::Key(name) => named_line(alloc, b"costs Key ", name),
        TableRefusal::Block(name) => named_line(alloc, b"costs Block ", name),
        TableRefusal::Number(name) => named_line(alloc, b"costs Number ", name),
        TableRefusal::Missing(name) => named_line(alloc, b"costs Missing ", name),
    }
}

fn plan_line(alloc: Global, refusal: &PlanRefusal) -> Result<Vec<u8>, AllocError>
    ensures { IfOk result (λ line. line.items ≡ spec.plan_line refusal.now) }
{
    match refusal {
        PlanRefusal::Blocks => Vec::from_slice(alloc, b"program plan Blocks\n"),
        PlanRefusal::Edges => Vec::from_slice(alloc, b"program plan Edges\n"),
        PlanRefusal::Cap(block) => named_line(alloc, b"program plan Cap ", block),
    }
}

// What is wrong, and the key or block that it names.
fn named_line(alloc: Global, words: &[u8], name: &Name) -> Result<Vec<u8>, AllocError>
    ensures { IfOk result (λ line. line.items ≡ spec.named_line words.now name.now) }
{
    let mut line = Vec::from_slice(alloc, words)?;
    line.extend_from_slice(name.as_slice())?;
    line.extend_from_slice(b"\n")?;
    Ok(line)
}
