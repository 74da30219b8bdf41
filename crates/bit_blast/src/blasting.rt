//! Conditions over terms become a formula.

ghost use Rattle.std.specs.Prelude.{◌≡◌, ◌<◌, ◌≤◌, ◌+◌, ◌++◌, [], ◌∷◌, All, IfOk, length, map};
ghost use Rattle.bit_circuits.specs.Words.{true_literal as truth_of};
ghost use Rattle.bit_circuits.specs.Tidy.{tidy_clauses};
ghost use Rattle.bit_circuits.specs.Gates.{gates_clauses};
ghost use Rattle.bit_circuits.specs.Formula.{VariablesOf, ClausesOf, first_of, bits_at as bits_at_of};
ghost use Rattle.bit_circuits.specs.Runs.{next_of};
ghost use Rattle.bv_term.specs.Stores.{IsStore};

use crate::blasted::Blasted;
use crate::conditions::push_conditions;
use crate::gates::push_gates;
use crate::tidy::push_tidied;
use bit_circuits::{Literal, Netlist, falses, terms_bits, truth};
use bv_term::{Op, Terms};
use c_tree::NoMemory;
use cnf_form::{Clause, Cnf};
use sqlite_items::Items;
use std::alloc::{AllocError, Global};

/// The formula of conditions over a store of terms: variable 1 is true, each declared input has 32 variables, each
/// gate of the terms' circuits is what it says, and some bit of each condition is true. At an input that fits the
/// store, all conditions are nonzero exactly where some satisfying assignment decodes to it. `NoMemory` is want of
/// memory; it is also the answer where there would be more than 2,147,483,647 variables or clauses.
pub fn blast(alloc: Global, terms: &Terms, conditions: &[u32]) -> Result<Blasted, NoMemory>
    requires { All (λ t. t < length terms.now.ops) conditions.now }
    ensures variables { IfOk result (λ b. b.cnf.variables ≡ VariablesOf terms.now) }
    ensures clauses { IfOk result (λ b. b.cnf.clauses ≡ ClausesOf terms.now conditions.now) }
    ensures inputs { IfOk result (λ b. b.inputs ≡ terms.now.inputs) }
{
    let ops = operators(alloc, terms)?;
    let inputs = terms.inputs();
    let mut netlist = without_gates(alloc, inputs);
    let words = terms_bits(alloc, &mut netlist, inputs.len(), ops.as_slice())?;
    let clauses = clauses_of(alloc, &netlist, words.as_slice(), conditions)?;
    let inputs = Items::from_slice(alloc, inputs)?;
    match Cnf::new(last_variable(&netlist), clauses) {
        Some(cnf) => Ok(Blasted { cnf, inputs }),
        None => Err(NoMemory),
    }
}

// No gates yet: the variables of gates come behind those of the inputs.
fn without_gates(alloc: Global, inputs: &[bool]) -> Netlist
    requires { length inputs.now ≤ 64 }
    ensures first { result.first ≡ first_of (length inputs.now) }
    ensures gates { result.gates.items ≡ [] }
{
    Netlist {
        first: 2 + 32 * inputs.len() as u32,
        gates: Vec::new(alloc),
    }
}

// The variable of the last gate, or that before the first one.
fn last_variable(netlist: &Netlist) -> u32
    ensures { result + 1 ≡ next_of netlist.now }
{
    netlist.first - 1 + netlist.gates.len() as u32
}

// The operators of a store, in order.
fn operators(alloc: Global, terms: &Terms) -> Result<Vec<Op>, AllocError>
    ensures value { IfOk result (λ ops. ops.items ≡ terms.now.ops) }
    ensures store { IsStore terms.now }
{
    let mut ops = Vec::new(alloc);
    for term in 0..terms.len() {
        ops.push(*terms.op(term))?;
    }
    Ok(ops)
}

// The clauses of the gates of terms with these words, and of conditions among them.
fn clauses_of(
    alloc: Global,
    netlist: &Netlist,
    words: &[Vec<Literal>],
    conditions: &[u32],
) -> Result<Vec<Clause>, AllocError>
    ensures { IfOk result (λ clauses. clauses.items ≡ (truth_of ∷ [])
        ∷ (gates_clauses netlist.now.first netlist.now.gates.items
        ++ tidy_clauses (map (bits_at_of (map (λ w. w.items) words.now)) conditions.now))) }
{
    let mut clauses = Vec::new(alloc);
    let first = [truth()];
    push_tidied(alloc, &mut clauses, first.as_slice())?;
    push_gates(alloc, &mut clauses, netlist.first, netlist.gates.as_slice())?;
    let none = falses(alloc, 32)?;
    push_conditions(alloc, &mut clauses, words, none.as_slice(), conditions)?;
    Ok(clauses)
}
