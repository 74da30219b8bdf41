//! Lines that are written.

ghost use Rattle.std.specs.Prelude.{◌≡◌, ◌≢◌, ◌≤◌, ◌<◌, ℕ, length, OnOk, OnErr};
ghost use Rattle.wc_outside.specs.Causes.{Rose, HasCause};
ghost use Rattle.wc_outside.specs.Growth.{Grew, GrewByPrefix};
ghost use Rattle.front_end.specs.Lines.{refusal_line};
ghost use Rattle.front_end.specs.Statuses.{status_of};

use crate::line::line_of;
use crate::refusal::Refusal;
use crate::status::Status;
use std::alloc::Global;
use wc_outside::{Failed, Sink, put_all};

// How long the first line of a text is, with its line feed.
fn line_length(text: &[u8]) -> usize
    requires { 0 < length text.now }
    ensures some { 0 < result }
    ensures within { result ≤ length text.now }
{
    match text.iter().position(|byte| *byte == b'\n') {
        Some(at) => at + 1,
        None => text.len(),
    }
}

/// Writes a text line by line. `Failed` comes only where the count of faults rose, and a prefix of the text is then
/// written.
pub fn put_lines<K: Sink>(out: &mut K, text: &[u8]) -> Result<(), Failed>
    ensures written { OnOk result (Grew (K.written out.old) (K.written out.new) text.now) }
    ensures part { OnErr result (GrewByPrefix (K.written out.old) (K.written out.new) text.now) }
    ensures cause { HasCause (K.faults out.old) (K.faults out.new) result }
{
    let mut rest = text;
    while !rest.is_empty() {
        let (line, more) = rest.split_at(line_length(rest));
        put_all(out, line)?;
        rest = more;
    }
    Ok(())
}

/// Writes the line of a refusal, and tells how the tool ends: as the refusal says, where the line is written whole.
/// `WriteFault` comes only where the count of faults rose, and a prefix of the line is then written; `NoMemory` comes
/// before anything is written.
pub fn refuse<K: Sink>(alloc: Global, out: &mut K, refusal: &Refusal) -> Status
    ensures told { result ≢ Status.WriteFault → result ≢ Status.NoMemory
        → (result ≡ status_of refusal.now) × Grew (K.written out.old) (K.written out.new) (refusal_line refusal.now) }
    ensures part { result ≡ Status.WriteFault
        → GrewByPrefix (K.written out.old) (K.written out.new) (refusal_line refusal.now)
        × Rose (K.faults out.old) (K.faults out.new) }
    ensures memory { result ≡ Status.NoMemory → K.written out.new ≡ K.written out.old }
    ensures refused { result ≢ Status.Whole × result ≢ Status.ReadFault × result ≢ Status.Inexact }
    ensures kept { result ≢ Status.WriteFault → K.faults out.new ≡ K.faults out.old }
    ensures later { K.faults out.old ≤ K.faults out.new }
{
    let Ok(line) = line_of(alloc, refusal) else {
        return Status::NoMemory;
    };
    match put_all(out, &line) {
        Ok(()) => refusal.status(),
        Err(_) => Status::WriteFault,
    }
}
