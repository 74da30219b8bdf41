//! The top call.

ghost use Rattle.std.specs.Prelude.{◌≡◌, ◌≢◌, ◌≤◌, ◌<◌, ◌^◌, ◌⊎◌, List, ℕ, IsTrue, map, IsSome};
ghost use Rattle.wc_outside.specs.Causes.{Rose};
ghost use Rattle.wc_outside.specs.Growth.{Grew};
ghost use Rattle.c_tree.specs.declared.program.Program.{Program as Tree};
ghost use Rattle.c_tree.specs.declared.program.Costs.{Costs as Table};
ghost use Rattle.c_tree.specs.declared.program.Input.{Input};
ghost use Rattle.c_tree.specs.Meaning.Claims.{Above, Tight, NoRun};
ghost use Rattle.c_input.specs.InputTexts.{HasText};
ghost use Rattle.text_lines.specs.Cutting.{HasNoFeed};
ghost use Rattle.race_report.specs.Claims.{IsReached};
ghost use Rattle.word_line.specs.declared.job.Job.{Job};
ghost use Rattle.word_line.specs.declared.job.Mode.{Mode};
ghost use Rattle.word_line.specs.Jobs.{IsJob, is_plain};
ghost use Rattle.word_line.specs.Words.{AskFor};
ghost use Rattle.front_end.specs.declared.refusal.Refusal.{Refusal};
ghost use Rattle.front_end.specs.declared.status.Status.{Status};
ghost use Rattle.front_end.specs.Statuses.{status_of};
ghost use Rattle.squeeze_top.specs.Jobs.{Give, Served, AreRefused, IsAnswer};
ghost use Rattle.squeeze_top.specs.Lines.{WroteLine, WroteBound, WroteWhatHolds, exact_lines, nothing_line};
ghost use Rattle.squeeze_top.specs.Written.{Wrote, WroteNoJob};

use crate::plain::plain_mode;
use crate::squeeze::squeeze_mode;
use front_end::Status;
use std::alloc::Global;
use std::sync::Wait;
use std::thread::Threads;
use wc_outside::{Gate, Shelf, Sink, put_all};
use word_line::{Job, Mode, WordFault, one_job, words as job_of};

// Tells that the words ask for no job.
fn refuse_words<K: Sink>(out: &mut K) -> Status
    ensures wrote { WroteNoJob result (K.written out.old) (K.written out.new) }
    ensures write_fault { result ≡ Status.WriteFault → Rose (K.faults out.old) (K.faults out.new) }
    ensures no_write_fault { result ≢ Status.WriteFault → K.faults out.new ≡ K.faults out.old }
    ensures later { K.faults out.old ≤ K.faults out.new }
    ensures only { result ≡ Status.Words ⊎ result ≡ Status.WriteFault }
{
    match put_all(out, b"words refused\n") {
        Ok(()) => Status::Words,
        Err(_) => Status::WriteFault,
    }
}

// Does a job.
fn do_job<S: Shelf, K: Sink>(alloc: Global, job: &Job, shelf: &mut S, out: &mut K) -> Status
    requires { IsJob job.now }
    ensures wrote { Wrote result job.now (S.contents shelf.old) (K.written out.old) (K.written out.new) }
    ensures memory { IsTrue (is_plain job.now.mode) → result ≡ Status.NoMemory → K.written out.new ≡ K.written out.old }
    ensures whole { IsTrue (is_plain job.now.mode) → result ≢ Status.Inexact }
    ensures read_fault { result ≡ Status.ReadFault → Rose (S.faults shelf.old) (S.faults shelf.new) }
    ensures write_fault { result ≡ Status.WriteFault → Rose (K.faults out.old) (K.faults out.new) }
    ensures no_read_fault { result ≢ Status.ReadFault → S.faults shelf.new ≡ S.faults shelf.old }
    ensures no_write_fault { result ≢ Status.WriteFault → K.faults out.new ≡ K.faults out.old }
    ensures shelf_later { S.faults shelf.old ≤ S.faults shelf.new }
    ensures sink_later { K.faults out.old ≤ K.faults out.new }
    ensures same { S.contents shelf.new ≡ S.contents shelf.old }
{
    match job.mode {
        Mode::Squeeze => squeeze_mode(alloc, job, shelf, out),
        _ => plain_mode(alloc, job, shelf, out),
    }
}

/// Does all that the program does: reads the words, and does the job that they ask for, as `plain_mode` does, or by the
/// mode `squeeze`; or writes that they are refused, where they ask for none. Want of memory may come before that. `rt`
/// and `gate` are for several workers, of which there is one today; so this call owes no return by its contract.
///
/// `squeeze` finds the dearest run of the program, as far as the limits of turns and conflicts go (WCET Squeezing, Knoop
/// et al.), and writes a report: `blocks N` and `ipet N`, before the race; and then `exact N` and the line of the input
/// whose run costs N, which no run exceeds; or `none` where no run ends; or `inexact N`, the best cost that was found,
/// and what was spent, where a limit ended the race. It ends whole in the first two cases, and else inexact.
///
/// The words are read by `clap` (`word_line`): the mode, its file where it takes one, options and flags. The entry is
/// `main` where none is named, and the input is empty where none is given.
pub fn wcet_main<R: Threads + Wait + Sync, S: Shelf, K: Sink, G: Gate + Sync>(
    _rt: &R,
    alloc: Global,
    words: &[&str],
    shelf: &mut S,
    out: &mut K,
    _gate: &G,
) -> Status
    // Words ask for one job, or for none.
    ensures asked { ((job : Job) × AskFor (map (λ w. w.now) words.now) job)
        ⊎ ((job : Job) → ¬ (AskFor (map (λ w. w.now) words.now) job)) }
    ensures one_job { (a b : Job) → AskFor (map (λ w. w.now) words.now) a
        → AskFor (map (λ w. w.now) words.now) b → a ≡ b }

    // What each status says of what was written. Of a job that needs no workers nothing is written before want of
    // memory, and it does not end inexact.
    ensures wrote { (job : Job) → AskFor (map (λ w. w.now) words.now) job
        → Wrote result job (S.contents shelf.old) (K.written out.old) (K.written out.new) }
    ensures no_job { ((job : Job) → ¬ (AskFor (map (λ w. w.now) words.now) job))
        → WroteNoJob result (K.written out.old) (K.written out.new) }
    ensures memory { (job : Job) → AskFor (map (λ w. w.now) words.now) job → IsTrue (is_plain job.mode)
        → result ≡ Status.NoMemory → K.written out.new ≡ K.written out.old }
    ensures whole { (job : Job) → AskFor (map (λ w. w.now) words.now) job → IsTrue (is_plain job.mode)
        → result ≢ Status.Inexact }

    // A fault of the shelf or the sink is told only where its count rose, and none is passed over.
    ensures read_fault { result ≡ Status.ReadFault → Rose (S.faults shelf.old) (S.faults shelf.new) }
    ensures write_fault { result ≡ Status.WriteFault → Rose (K.faults out.old) (K.faults out.new) }
    ensures no_read_fault { result ≢ Status.ReadFault → S.faults shelf.new ≡ S.faults shelf.old }
    ensures no_write_fault { result ≢ Status.WriteFault → K.faults out.new ≡ K.faults out.old }

    // Each line with a bound N that was written whole, at whatever status, is above every run of every program and
    // costs that the texts give.
    ensures bounds { (job : Job) (n : ℕ) (p : Tree) (t : Table) → AskFor (map (λ w. w.now) words.now) job
        → IsSome (S.contents shelf.old) → n < 2 ^ 128
        → WroteBound job.mode n (K.written out.old) (K.written out.new)
        → Give job (S.contents shelf.old) p t → Above p t n }

    // Where `squeeze` has written the lines of an exact bound N and of an input whole, at whatever status, the input is
    // the text of one whose run costs N, which no run exceeds. Where it has written that there is none, no run ends.
    ensures exact { (job : Job) (n : ℕ) (input : List ℕ) (p : Tree) (t : Table)
        → AskFor (map (λ w. w.now) words.now) job → job.mode ≡ Mode.Squeeze
        → IsSome (S.contents shelf.old) → n < 2 ^ 128 → HasNoFeed input
        → WroteLine (K.written out.old) (K.written out.new) (exact_lines n input)
        → Give job (S.contents shelf.old) p t → (i : Input) × HasText p input i × Tight p t i n }
    ensures none { (job : Job) (p : Tree) (t : Table)
        → AskFor (map (λ w. w.now) words.now) job → job.mode ≡ Mode.Squeeze
        → IsSome (S.contents shelf.old) → WroteLine (K.written out.old) (K.written out.new) nothing_line
        → Give job (S.contents shelf.old) p t → NoRun p }

    // All that it has written, at whatever status, are lines whose claims hold; or the last of them is cut off. Their
    // bounds never rise, and the costs that they tell to be found never fall.
    ensures holds { (job : Job) (p : Tree) (t : Table)
        → AskFor (map (λ w. w.now) words.now) job → job.mode ≡ Mode.Squeeze
        → IsSome (S.contents shelf.old) → Give job (S.contents shelf.old) p t
        → WroteWhatHolds p t (K.written out.old) (K.written out.new) }

    // Where it ends whole, it has written the exact bound and its input if some run ends, and else that there is none.
    ensures found { (job : Job) (n : ℕ) (p : Tree) (t : Table)
        → AskFor (map (λ w. w.now) words.now) job → job.mode ≡ Mode.Squeeze
        → IsSome (S.contents shelf.old) → IsSome (K.written out.old) → Give job (S.contents shelf.old) p t
        → result ≡ Status.Whole → IsReached p t n
        → (bound : ℕ) × (input : List ℕ)
        × WroteLine (K.written out.old) (K.written out.new) (exact_lines bound input) }
    ensures found_none { (job : Job) (p : Tree) (t : Table)
        → AskFor (map (λ w. w.now) words.now) job → job.mode ≡ Mode.Squeeze
        → IsSome (S.contents shelf.old) → IsSome (K.written out.old) → Give job (S.contents shelf.old) p t
        → result ≡ Status.Whole → NoRun p
        → WroteLine (K.written out.old) (K.written out.new) nothing_line }

    // There is one answer to a job that needs no workers.
    ensures one_answer { (job : Job) (s u : Status) (a b : List ℕ) → IsTrue (is_plain job.mode)
        → IsSome (S.contents shelf.old)
        → IsAnswer job (S.contents shelf.old) s a → IsAnswer job (S.contents shelf.old) u b
        → (s ≡ u) × (a ≡ b) }

    // It is given, where nothing fails outside and memory serves.
    ensures answered { (job : Job) (s : Status) (text : List ℕ) → AskFor (map (λ w. w.now) words.now) job
        → IsTrue (is_plain job.mode)
        → IsSome (S.contents shelf.old) → IsAnswer job (S.contents shelf.old) s text
        → ¬ (Rose (S.faults shelf.old) (S.faults shelf.new)) → ¬ (Rose (K.faults out.old) (K.faults out.new))
        → ((result ≡ s) × Grew (K.written out.old) (K.written out.new) text) ⊎ result ≡ Status.NoMemory }

    // Texts that are accepted are answered, where nothing fails outside and memory serves.
    ensures complete { (job : Job) → AskFor (map (λ w. w.now) words.now) job
        → IsSome (S.contents shelf.old) → Served job (S.contents shelf.old)
        → ¬ (Rose (S.faults shelf.old) (S.faults shelf.new)) → ¬ (Rose (K.faults out.old) (K.faults out.new))
        → result ≡ Status.Whole ⊎ (result ≡ Status.Inexact ⊎ result ≡ Status.NoMemory) }

    // Where texts are refused, so is the job, with the status of the refusal; where there is no job, so are the words.
    ensures refused { (job : Job) (refusal : Refusal) → AskFor (map (λ w. w.now) words.now) job
        → IsSome (S.contents shelf.old) → AreRefused job (S.contents shelf.old) refusal
        → ¬ (Rose (S.faults shelf.old) (S.faults shelf.new)) → ¬ (Rose (K.faults out.old) (K.faults out.new))
        → result ≡ status_of refusal ⊎ result ≡ Status.NoMemory }
    ensures refused_words { ((job : Job) → ¬ (AskFor (map (λ w. w.now) words.now) job))
        → ¬ (Rose (K.faults out.old) (K.faults out.new))
        → result ≡ Status.Words ⊎ result ≡ Status.NoMemory }

    ensures shelf_later { S.faults shelf.old ≤ S.faults shelf.new }
    ensures sink_later { K.faults out.old ≤ K.faults out.new }
    ensures same { S.contents shelf.new ≡ S.contents shelf.old }
{
    one_job();
    match job_of(alloc, words) {
        Ok(job) => do_job(alloc, &job, shelf, out),
        Err(WordFault::Refused) => refuse_words(out),
        Err(WordFault::NoMemory) => Status::NoMemory,
    }
}
