//! Jobs that need no workers.

ghost use Rattle.std.specs.Prelude.{◌≡◌, ◌≢◌, ◌≤◌, ◌<◌, ◌^◌, ◌⊎◌, List, ℕ, IsTrue, IfOk, IfErr, IsSome};
ghost use Rattle.wc_outside.specs.Causes.{Rose};
ghost use Rattle.wc_outside.specs.Growth.{Grew, GrewByPrefix};
ghost use Rattle.c_tree.specs.declared.program.Program.{Program as Tree};
ghost use Rattle.c_tree.specs.declared.program.Costs.{Costs as Table};
ghost use Rattle.c_tree.specs.Meaning.Claims.{Above};
ghost use Rattle.word_line.specs.Jobs.{IsJob, is_plain};
ghost use Rattle.front_end.specs.declared.refusal.Refusal.{Refusal};
ghost use Rattle.front_end.specs.declared.status.Status.{Status};
ghost use Rattle.front_end.specs.Halts.{Counts};
ghost use Rattle.front_end.specs.Statuses.{status_of};
ghost use Rattle.squeeze_top.specs.Jobs.{Give, Served, AreRefused, IsAnswer, IsHalt};
ghost use Rattle.squeeze_top.specs.Lines.{WroteBound};
ghost use Rattle.squeeze_top.specs.Written.{Wrote};

use crate::answer::{Answer, answer_of, case_answer};
use crate::source::source_of;
use front_end::{Halt, Status, front_end, put_lines, refuse};
use std::alloc::Global;
use wc_outside::{Shelf, Sink};
use word_line::Job;

// The answer to a job.
fn answer_to<S: Shelf>(alloc: Global, job: &Job, shelf: &mut S) -> Result<Answer, Halt>
    requires job { IsJob job.now }
    requires plain { IsTrue (is_plain job.now.mode) }
    ensures answered { IfOk result (λ a. IsAnswer job.now (S.contents shelf.old) a.status a.text.items) }
    ensures whole { IfOk result (λ a. a.status ≡ Status.Whole) }
    ensures halted { IfErr result (λ halt. IsHalt halt job.now (S.contents shelf.old)) }
    ensures counts { Counts result (S.faults shelf.old) (S.faults shelf.new) }
    ensures same { S.contents shelf.new ≡ S.contents shelf.old }
{
    match &job.file {
        Some(file) => {
            let front = front_end(alloc, shelf, &source_of(job, file))?;
            Ok(answer_of(alloc, job, &front)?)
        }
        None => Ok(case_answer(alloc, job)?),
    }
}

// Writes an answer, and tells how the tool ends: as the answer says, where it is written whole.
fn tell<K: Sink>(out: &mut K, answer: &Answer) -> Status
    requires { answer.now.status ≡ Status.Whole }
    ensures told { result ≡ Status.Whole → Grew (K.written out.old) (K.written out.new) answer.now.text.items }
    ensures part { result ≡ Status.WriteFault
        → GrewByPrefix (K.written out.old) (K.written out.new) answer.now.text.items }
    ensures write_fault { result ≡ Status.WriteFault → Rose (K.faults out.old) (K.faults out.new) }
    ensures no_write_fault { result ≢ Status.WriteFault → K.faults out.new ≡ K.faults out.old }
    ensures later { K.faults out.old ≤ K.faults out.new }
    ensures only { result ≡ Status.Whole ⊎ result ≡ Status.WriteFault }
{
    match put_lines(out, &answer.text) {
        Ok(()) => answer.status,
        Err(_) => Status::WriteFault,
    }
}

/// Does a job that needs no workers: reads the files that it names, and writes the answer, or the line of the first
/// refusal. It takes no lock, and returns.
///
/// The modes are `bound`, which writes the optimum of implicit path enumeration (Li and Malik), which no run exceeds;
/// `ipet`, which writes how many block copies there are and the optimum; `blocks`, which writes each block with its
/// cost; `run`, which writes how the run on the input ends; `print`, which writes the program; and `make`, which reads no
/// file and writes the program of a made case, or its table. Without a table each block costs 1.
///
/// The order of work, and so of refusals, is: the program's bytes and their size; its tokens; its unit; its names,
/// kinds and bounds; the input of a run; the table's bytes and their size; the table's costs; the limits of the flat
/// graph; and a fault of the sink. A fault of the shelf stands where its file is read. Want of memory may come before
/// any of them. The clauses that speak of texts hold where the shelf tells its contents.
pub fn plain_mode<S: Shelf, K: Sink>(alloc: Global, job: &Job, shelf: &mut S, out: &mut K) -> Status
    // The job is one that words ask for, and its mode needs no workers.
    requires job { IsJob job.now }
    requires plain { IsTrue (is_plain job.now.mode) }

    // What each status says of what was written; before want of memory and at a fault of the shelf that is nothing. No
    // such job ends inexact.
    ensures wrote { Wrote result job.now (S.contents shelf.old) (K.written out.old) (K.written out.new) }
    ensures memory { result ≡ Status.NoMemory → K.written out.new ≡ K.written out.old }
    ensures unread { result ≡ Status.ReadFault → K.written out.new ≡ K.written out.old }
    ensures whole { result ≢ Status.Inexact }

    // A fault of the shelf or the sink is told only where its count rose, and none is passed over.
    ensures read_fault { result ≡ Status.ReadFault → Rose (S.faults shelf.old) (S.faults shelf.new) }
    ensures write_fault { result ≡ Status.WriteFault → Rose (K.faults out.old) (K.faults out.new) }
    ensures no_read_fault { result ≢ Status.ReadFault → S.faults shelf.new ≡ S.faults shelf.old }
    ensures no_write_fault { result ≢ Status.WriteFault → K.faults out.new ≡ K.faults out.old }

    // Each line with a bound N that was written whole, at whatever status, is above every run of every program and
    // costs that the texts give.
    ensures bounds { (n : ℕ) (p : Tree) (t : Table) → IsSome (S.contents shelf.old) → n < 2 ^ 128
        → WroteBound job.now.mode n (K.written out.old) (K.written out.new)
        → Give job.now (S.contents shelf.old) p t → Above p t n }

    // There is one answer.
    ensures one_answer { (s u : Status) (a b : List ℕ) → IsSome (S.contents shelf.old)
        → IsAnswer job.now (S.contents shelf.old) s a → IsAnswer job.now (S.contents shelf.old) u b
        → (s ≡ u) × (a ≡ b) }

    // It is given, where nothing fails outside and memory serves.
    ensures answered { (s : Status) (text : List ℕ) → IsSome (S.contents shelf.old)
        → IsAnswer job.now (S.contents shelf.old) s text
        → ¬ (Rose (S.faults shelf.old) (S.faults shelf.new)) → ¬ (Rose (K.faults out.old) (K.faults out.new))
        → ((result ≡ s) × Grew (K.written out.old) (K.written out.new) text) ⊎ result ≡ Status.NoMemory }

    // Texts that are accepted are answered, where nothing fails outside and memory serves.
    ensures complete { IsSome (S.contents shelf.old) → Served job.now (S.contents shelf.old)
        → ¬ (Rose (S.faults shelf.old) (S.faults shelf.new)) → ¬ (Rose (K.faults out.old) (K.faults out.new))
        → result ≡ Status.Whole ⊎ result ≡ Status.NoMemory }

    // Where texts are refused, so is the job, with the status of the refusal.
    ensures refused { (refusal : Refusal) → IsSome (S.contents shelf.old)
        → AreRefused job.now (S.contents shelf.old) refusal
        → ¬ (Rose (S.faults shelf.old) (S.faults shelf.new)) → ¬ (Rose (K.faults out.old) (K.faults out.new))
        → result ≡ status_of refusal ⊎ result ≡ Status.NoMemory }

    ensures shelf_later { S.faults shelf.old ≤ S.faults shelf.new }
    ensures sink_later { K.faults out.old ≤ K.faults out.new }
    ensures same { S.contents shelf.new ≡ S.contents shelf.old }
{
    match answer_to(alloc, job, shelf) {
        Ok(answer) => tell(out, &answer),
        Err(Halt::Refused(refusal)) => refuse(alloc, out, &refusal),
        Err(Halt::ReadFault) => Status::ReadFault,
        Err(Halt::NoMemory) => Status::NoMemory,
    }
}
