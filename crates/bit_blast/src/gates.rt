//! The clauses of gates.

ghost use Rattle.std.specs.Prelude.{◌≡◌, ◌<◌, ◌≤◌, ◌+◌, ◌^◌, ◌++◌, [], ◌∷◌, length, OnOk};
ghost use Rattle.bit_circuits.specs.declared.gate.Gate.TheVariants as gates;
ghost use Rattle.bit_circuits.specs.Tidy.{tidy_clauses};
ghost use Rattle.bit_circuits.specs.Gates.{equality, gates_clauses};

use crate::tidy::push_tidied;
use bit_circuits::{Gate, Literal};
use cnf_form::Clause;
use std::alloc::{AllocError, Global};

/// The clauses of gates whose variables are numbered from `first` on, behind other clauses.
pub(crate) fn push_gates(
    alloc: Global,
    clauses: &mut Vec<Clause>,
    first: u32,
    gates: &[Gate],
) -> Result<(), AllocError>
    requires some { 0 < first }
    requires few { first + length gates.now ≤ 2 ^ 31 }
    ensures { OnOk result (clauses.new.items ≡ clauses.old.items ++ gates_clauses first gates.now) }
{
    let mut variable = first;
    for gate in gates {
        push_gate(alloc, clauses, Literal::of_variable(variable), gate)?;
        variable += 1;
    }
    Ok(())
}

// The clauses that say what the variable of a gate equals.
fn push_gate(
    alloc: Global,
    clauses: &mut Vec<Clause>,
    variable: Literal,
    gate: &Gate,
) -> Result<(), AllocError>
    ensures { OnOk result (clauses.new.items ≡ clauses.old.items ++ tidy_clauses (equality variable gate.now)) }
{
    match *gate {
        Gate::And(l, m) => push_and(alloc, clauses, variable, l, m),
        Gate::Or(l, m) => push_or(alloc, clauses, variable, l, m),
        Gate::Xor(l, m) => push_xor(alloc, clauses, variable, l, m),
        Gate::Majority(l, m, k) => push_majority(alloc, clauses, variable, l, m, k),
        Gate::Choice(c, l, m) => push_choice(alloc, clauses, variable, c, l, m),
    }
}

fn push_and(
    alloc: Global,
    clauses: &mut Vec<Clause>,
    x: Literal,
    l: Literal,
    m: Literal,
) -> Result<(), AllocError>
    ensures { OnOk result (clauses.new.items ≡ clauses.old.items ++ tidy_clauses (equality x (gates.And l m))) }
{
    push_two(alloc, clauses, x.negated(), l)?;
    push_two(alloc, clauses, x.negated(), m)?;
    push_three(alloc, clauses, x, l.negated(), m.negated())
}

fn push_or(
    alloc: Global,
    clauses: &mut Vec<Clause>,
    x: Literal,
    l: Literal,
    m: Literal,
) -> Result<(), AllocError>
    ensures { OnOk result (clauses.new.items ≡ clauses.old.items ++ tidy_clauses (equality x (gates.Or l m))) }
{
    push_two(alloc, clauses, x, l.negated())?;
    push_two(alloc, clauses, x, m.negated())?;
    push_three(alloc, clauses, x.negated(), l, m)
}

fn push_xor(
    alloc: Global,
    clauses: &mut Vec<Clause>,
    x: Literal,
    l: Literal,
    m: Literal,
) -> Result<(), AllocError>
    ensures { OnOk result (clauses.new.items ≡ clauses.old.items ++ tidy_clauses (equality x (gates.Xor l m))) }
{
    push_three(alloc, clauses, x.negated(), l, m)?;
    push_three(alloc, clauses, x.negated(), l.negated(), m.negated())?;
    push_three(alloc, clauses, x, l.negated(), m)?;
    push_three(alloc, clauses, x, l, m.negated())
}

fn push_majority(
    alloc: Global,
    clauses: &mut Vec<Clause>,
    x: Literal,
    l: Literal,
    m: Literal,
    k: Literal,
) -> Result<(), AllocError>
    ensures { OnOk result (clauses.new.items ≡ clauses.old.items ++ tidy_clauses (equality x (gates.Majority l m k))) }
{
    push_three(alloc, clauses, x.negated(), l, m)?;
    push_three(alloc, clauses, x.negated(), l, k)?;
    push_three(alloc, clauses, x.negated(), m, k)?;
    push_three(alloc, clauses, x, l.negated(), m.negated())?;
    push_three(alloc, clauses, x, l.negated(), k.negated())?;
    push_three(alloc, clauses, x, m.negated(), k.negated())
}

fn push_choice(
    alloc: Global,
    clauses: &mut Vec<Clause>,
    x: Literal,
    c: Literal,
    l: Literal,
    m: Literal,
) -> Result<(), AllocError>
    ensures { OnOk result (clauses.new.items ≡ clauses.old.items ++ tidy_clauses (equality x (gates.Choice c l m))) }
{
    push_three(alloc, clauses, x.negated(), c.negated(), l)?;
    push_three(alloc, clauses, x.negated(), c, m)?;
    push_three(alloc, clauses, x, c.negated(), l.negated())?;
    push_three(alloc, clauses, x, c, m.negated())
}

fn push_two(
    alloc: Global,
    clauses: &mut Vec<Clause>,
    l: Literal,
    m: Literal,
) -> Result<(), AllocError>
    ensures { OnOk result (clauses.new.items ≡ clauses.old.items ++ tidy_clauses ((l ∷ m ∷ []) ∷ [])) }
{
    let literals = [l, m];
    push_tidied(alloc, clauses, literals.as_slice())
}

fn push_three(
    alloc: Global,
    clauses: &mut Vec<Clause>,
    l: Literal,
    m: Literal,
    k: Literal,
) -> Result<(), AllocError>
    ensures { OnOk result (clauses.new.items ≡ clauses.old.items ++ tidy_clauses ((l ∷ m ∷ k ∷ []) ∷ [])) }
{
    let literals = [l, m, k];
    push_tidied(alloc, clauses, literals.as_slice())
}
