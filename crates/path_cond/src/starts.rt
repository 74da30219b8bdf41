//! The memory that a run begins with (C11 6.7.9, 6.9.1).

ghost use Rattle.std.specs.Prelude.{◌≡◌, ◌<◌, ◌≤◌, ◌+◌, ◌^◌, true, length, None, Some, IfOk};
ghost use Rattle.c_tree.specs.Meaning.Runs.{input_types, outer_types};
ghost use Rattle.c_tree.specs.Meaning.Values.{is_of};
ghost use Rattle.c_tree.specs.Keeping.WellFormed.{
  AreNumbersOf,
  IsLength,
  WellFormed,
  WellFormedGlobal,
  WellFormedGlobals,
};
ghost use Rattle.cond_laws.specs.Conditions.{AllBelow};
ghost use Rattle.cond_laws.specs.Fits.{AsMany, FitMemory, FitSlot, FitSlots};
ghost use Rattle.cond_laws.specs.TermPaths as spec;
ghost use Rattle.path_cond.specs.Memories.{memory_of};
ghost use Rattle.path_cond.specs.Parts as part;
ghost use Rattle.term_steps.specs.Gives.{Gives};

use crate::calls::entry_slots;
use crate::inputs::width;
use crate::memory::Memory;
use bv_term::{Op, Terms};
use c_tree::{Global as Outside, NoMemory, Program, Ty};
use cond_laws::{TermSlot, TermStore};
use sqlite_items::Items;
use std::alloc::Global;
use term_effects::zeros;
use term_steps::{joined, put};

// So many inputs, of which the first has the number `first`.
fn inputs(alloc: Global, terms: &mut Terms, first: u32, count: u32) -> Result<Items<u32>, NoMemory>
    requires declared { first + count ≤ length terms.old.inputs }
    requires few { first + count ≤ 64 }
    ensures { IfOk result (λ ns. Gives (AsMany count) (spec.input_terms first count) terms.old terms.new ns) }
{
    let mut numbers = Items::new(alloc);
    for k in 0..count {
        let number = put(terms, Op::Input(first + k))?;
        numbers.push(number)?;
    }
    Ok(numbers)
}

// The word of a number of a type.
fn word_in(ty: Ty, value: &i64) -> u32
    requires { is_of ty value.now ≡ true }
    ensures { result ≡ spec.word_in ty value.now }
{
    match ty {
        Ty::Int => (*value as i32).cast_unsigned(),
        Ty::Unsigned => *value as u32,
    }
}

// The numbers of an initialiser.
fn numbers(alloc: Global, terms: &mut Terms, ty: Ty, values: &[i64]) -> Result<Items<u32>, NoMemory>
    requires { AreNumbersOf ty values.now }
    ensures { IfOk result (λ ns. Gives (AsMany (length values.now)) (spec.numbers ty values.now)
        terms.old terms.new ns) }
{
    let mut words = Items::new(alloc);
    for value in values {
        let word = put(terms, Op::Const(word_in(ty, value)))?;
        words.push(word)?;
    }
    Ok(words)
}

// A global that is no array, with its term, or 0.
fn scalar_slot(terms: &mut Terms, ty: Ty, given: &[u32]) -> Result<TermSlot, NoMemory>
    requires { AllBelow (length terms.old.ops) given.now }
    ensures { IfOk result (λ x. Gives FitSlot (spec.global_term_slot ty None given.now) terms.old terms.new x) }
{
    if given.is_empty() {
        let zero = put(terms, Op::Const(0))?;
        Ok(TermSlot::Number(ty, zero))
    } else {
        Ok(TermSlot::Number(ty, given[0]))
    }
}

// A global array with its terms, and 0 behind them.
fn array_slot(
    alloc: Global,
    terms: &mut Terms,
    ty: Ty,
    count: u32,
    given: Items<u32>,
) -> Result<TermSlot, NoMemory>
    requires there { AllBelow (length terms.old.ops) given }
    requires few { length given < 2 ^ 31 }
    requires short { count ≤ 64 }
    ensures { IfOk result (λ x. Gives FitSlot (spec.global_term_slot ty (Some count) given) terms.old terms.new x) }
{
    let missing = (count as usize).saturating_sub(given.len());
    let more = zeros(alloc, terms, missing)?;
    let elements = joined(given, more)?;
    Ok(TermSlot::Numbers(ty, elements))
}

// A global with its terms, and 0 where there are none (C11 6.7.9 paragraphs 10 and 21).
fn global_slot(
    alloc: Global,
    terms: &mut Terms,
    global: &Outside,
    given: Items<u32>,
) -> Result<TermSlot, NoMemory>
    requires array { IsLength global.now.length }
    requires there { AllBelow (length terms.old.ops) given }
    requires few { length given < 2 ^ 31 }
    ensures { IfOk result (λ x. Gives FitSlot (spec.global_term_slot global.now.ty global.now.length given)
        terms.old terms.new x) }
{
    match global.length {
        None => scalar_slot(terms, global.ty, given.as_slice()),
        Some(count) => array_slot(alloc, terms, global.ty, count, given),
    }
}

// The terms of a global: the inputs from `first` on, or the numbers of its initialiser.
fn global_terms(
    alloc: Global,
    terms: &mut Terms,
    global: &Outside,
    first: u32,
) -> Result<Items<u32>, NoMemory>
    requires formed { WellFormedGlobal global.now }
    requires declared { part.next_input global.now first ≤ length terms.old.inputs }
    requires few { part.next_input global.now first ≤ 64 }
    ensures terms { IfOk result (λ ns. Gives AllBelow (part.global_terms global.now first) terms.old terms.new ns) }
    ensures few { IfOk result (λ ns. length ns < 2 ^ 31) }
{
    if global.outer {
        inputs(alloc, terms, first, width(global.length))
    } else {
        numbers(alloc, terms, global.ty, global.values.as_slice())
    }
}

// The slots of the globals, of which the first extern one has the inputs from `first` on.
fn global_slots(
    alloc: Global,
    terms: &mut Terms,
    globals: &[Outside],
    first: u32,
) -> Result<Items<TermSlot>, NoMemory>
    requires formed { WellFormedGlobals globals.now }
    requires declared { first + length (outer_types globals.now) ≤ length terms.old.inputs }
    requires few { first + length (outer_types globals.now) ≤ 64 }
    ensures { IfOk result (λ xs. Gives FitSlots (spec.global_term_slots globals.now first) terms.old terms.new xs) }
{
    let mut slots = Items::new(alloc);
    let mut next = first;
    for global in globals {
        let given = global_terms(alloc, terms, global, next)?;
        slots.push(global_slot(alloc, terms, global, given)?)?;
        next = next_input(global, next);
    }
    Ok(slots)
}

// The number of the input behind those of a global.
fn next_input(global: &Outside, first: u32) -> u32
    requires { part.next_input global.now first ≤ 64 }
    ensures { result ≡ part.next_input global.now first }
{
    if global.outer {
        first + width(global.length)
    } else {
        first
    }
}

/// The memory that a run of the program begins with: all inputs are put, the parameters' first, and the numbers of the
/// initialisers.
pub(crate) fn start(alloc: Global, terms: &mut Terms, program: &Program) -> Result<Memory, NoMemory>
    requires formed { WellFormed program.now }
    requires declared { length terms.old.inputs ≡ length (input_types program.now) }
    ensures { IfOk result (λ m. Gives FitMemory (spec.start_term_memory program.now) terms.old terms.new (memory_of m)) }
{
    let entry = &program.funcs.as_slice()[program.entry as usize];
    let given = inputs(alloc, terms, 0, entry.params)?;
    let locals = entry_slots(alloc, terms, entry.locals.as_slice(), given.as_slice())?;
    let globals = global_slots(alloc, terms, program.globals.as_slice(), entry.params)?;
    Ok(Memory {
        store: TermStore { locals, globals },
        frames: Items::new(alloc),
        result: None,
    })
}
