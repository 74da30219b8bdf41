//! Checking a unit.

ghost use Rattle.std.specs.Prelude.{◌≡◌, IfOk, IfErr, IfSome, None, unwrap_or};
ghost use Rattle.c_tree.specs.Checking.Checked.{IsSpelled};
ghost use Rattle.c_tree.specs.Checking.Naming.{program_of, entry_number};
ghost use Rattle.c_tree.specs.Checking.Uses.{uses};
ghost use Rattle.c_tree.specs.Checking.Refusals.{
  Typed,
  IsRefused,
  faults,
  wide_func_faults,
  no_entry_faults,
  input_faults,
};
ghost use Rattle.c_faults.specs.Verdicts.{after_all, after_uses};
ghost use Rattle.c_check.specs.Answers.{fault_and_place};
ghost use Rattle.c_check.specs.Parts.{with_parts};

use crate::entry;
use crate::fault::CheckFault;
use c_faults::{Fault, Verdict};
use c_resolve::{Resolved, resolve};
use c_spans::function_spans;
use c_tree::{Func, Global as Outside, NoMemory, Program, RawTop, Unit};
use sqlite_items::Items;
use std::alloc::Global;

/// The greatest span of a function.
const MAX_SPAN: u128 = 18_446_744_073_709_551_616;

/// A unit with its names replaced by numbers. Faults may stand in it, so it is no program yet.
#[derive(Drop)]
pub(crate) struct Named {
    pub(crate) globals: Items<Outside>,
    pub(crate) funcs: Items<Func>,
    pub(crate) entry: u32,
}

/// The program of a unit whose runs begin with the function `entry`: the unit with its names replaced by numbers,
/// where no fault stands. A name is in scope from the end of its declarator, its own initialiser included, to the end
/// of the list or the `for` that declares it (C11 6.2.1); functions are known in the whole unit. Bytes of names are
/// compared.
///
/// The unit is one that the tokens of some text spell, whatever its height, and is consumed. Of the faults that stand
/// the first of `CheckFault` is told, and of that one the smallest place. Want of memory may be told in place of
/// either answer.
pub fn check(alloc: Global, unit: Unit, entry: &str) -> Result<Program, CheckFault>
    requires spelled { IsSpelled unit }
    ensures program { IfOk result (Typed unit entry.now) }
    ensures refused { IfErr result (λ e. IfSome (fault_and_place e) (IsRefused unit entry.now)) }
{
    let Named {
        globals,
        funcs,
        entry,
    } = faultless(alloc, &unit, entry)?;
    Ok(Program {
        globals,
        funcs,
        entry,
    })
}

// The parts of the program of any unit, where no fault stands; else the first fault.
fn faultless(alloc: Global, unit: &Unit, entry: &str) -> Result<Named, CheckFault>
    ensures named { IfOk result (λ n. Typed unit.now entry.now (with_parts n)) }
    ensures refused { IfErr result (λ e. IfSome (fault_and_place e) (IsRefused unit.now entry.now)) }
{
    let (named, verdict) = judged(alloc, unit, entry.as_bytes())?;
    match verdict.first() {
        None => Ok(named),
        Some(refusal) => Err(refusal.into()),
    }
}

// A unit with its names replaced by numbers, and the first of its faults.
fn judged(alloc: Global, unit: &Unit, entry: &[u8]) -> Result<(Named, Verdict), NoMemory>
    ensures named { IfOk result (λ r. with_parts r.0 ≡ program_of unit.now entry.now) }
    ensures first { IfOk result (λ r. r.1 ≡ after_all None (faults unit.now entry.now)) }
{
    let (named, mut verdict) = walked(alloc, unit, entry)?;
    ask_of_entry(unit, entry, &mut verdict);
    ask_of_inputs(unit, entry, &mut verdict);
    let spans = function_spans(alloc, named.funcs.as_slice())?;
    ask_of_spans(&spans, unit.tops.as_slice(), &mut verdict);
    Ok((named, verdict))
}

// A unit with its names replaced by numbers, and the first fault of its single uses.
fn walked(alloc: Global, unit: &Unit, entry: &[u8]) -> Result<(Named, Verdict), NoMemory>
    ensures named { IfOk result (λ r. with_parts r.0 ≡ program_of unit.now entry.now) }
    ensures first { IfOk result (λ r. r.1 ≡ after_uses None (uses unit.now)) }
{
    let Resolved {
        globals,
        funcs,
        verdict,
    } = resolve(alloc, unit)?;
    let entry = first_entry(funcs.as_slice(), entry)?;
    let named = Named {
        globals,
        funcs,
        entry,
    };
    Ok((named, verdict))
}

// The number of the function of this name; 0 where there is none.
fn first_entry(funcs: &[Func], name: &[u8]) -> Result<u32, NoMemory>
    ensures { IfOk result (λ n. n ≡ unwrap_or (entry_number funcs.now name.now) 0) }
{
    let number = match entry::entry_number(funcs, name) {
        Some(number) => number,
        None => 0,
    };
    match u32::try_from(number) {
        Ok(number) => Ok(number),
        Err(_) => Err(NoMemory),
    }
}

// No function has the entry's name.
fn ask_of_entry(unit: &Unit, entry: &[u8], verdict: &mut Verdict)
    ensures { verdict.new ≡ after_all verdict.old (no_entry_faults unit.now entry.now) }
{
    let is_missing = entry::func_named(unit.tops.as_slice(), entry).is_none();
    verdict.refuse_if(is_missing, Fault::NoEntry, unit.end);
}

// A 65th input number.
fn ask_of_inputs(unit: &Unit, entry: &[u8], verdict: &mut Verdict)
    ensures { verdict.new ≡ after_all verdict.old (input_faults unit.now entry.now) }
{
    let tops = unit.tops.as_slice();
    let extra = match entry::func_named(tops, entry) {
        None => entry::extra_input(&[], tops),
        Some(func) => entry::extra_input(func.params.as_slice(), tops),
    };
    if let Some(at) = extra {
        verdict.refuse(Fault::Inputs, at);
    }
}

// A function whose span is above 2^64.
fn ask_of_spans(spans: &[u128], tops: &[RawTop], verdict: &mut Verdict)
    ensures { verdict.new ≡ after_all verdict.old (wide_func_faults spans.now tops.now) }
{
    let mut number = 0;
    for top in tops {
        match top {
            RawTop::Outer(_, _, _, _) => {}
            RawTop::Global(_, _, _, _, _) => {}
            RawTop::Func(func) => {
                let Some(span) = spans.get(number) else {
                    return;
                };
                verdict.refuse_if(*span > MAX_SPAN, Fault::Span, func.spot.at);
                number += 1;
            }
        }
    }
}
