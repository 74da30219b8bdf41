//! Clauses as they are written.

ghost use Rattle.std.specs.Prelude.{◌≡◌, ◌++◌, ◌∷◌, [], false, not, All, IfOk, OnOk};
ghost use Rattle.std.specs.List.{filter};
ghost use Rattle.std.specs.Ordering.{int_eq};
ghost use Rattle.cnf_form.specs.Literals.{IsLiteral};
ghost use Rattle.bit_circuits.specs.Tidy.{
  has as has_of,
  has_both_signs as has_both_signs_of,
  once as once_of,
  tidy_clauses as tidied_of,
};

use bit_circuits::Literal;
use cnf_form::Clause;
use std::alloc::{AllocError, Global};

/// Whether the literal stands among these.
pub(crate) fn has(literal: Literal, literals: &[Literal]) -> bool
    ensures { result ≡ has_of literal literals.now }
{
    literals
        .iter()
        .any(|other| literal.number() == other.number())
}

/// Whether some variable stands with both signs.
pub(crate) fn has_both_signs(literals: &[Literal]) -> bool
    ensures { result ≡ has_both_signs_of literals.now }
{
    for i in 0..literals.len() {
        if has(literals[i].negated(), &literals[i + 1..]) {
            return true;
        }
    }
    false
}

/// Each literal once, where it stands first.
pub(crate) fn once(alloc: Global, literals: &[Literal]) -> Result<Vec<Literal>, AllocError>
    ensures { IfOk result (λ kept. kept.items ≡ once_of literals.now) }
{
    let mut kept = Vec::new(alloc);
    for i in (0..literals.len()).rev() {
        let literal = literals[i];
        kept = others(alloc, literal, kept.as_slice())?;
        kept.insert(0, literal)?;
    }
    Ok(kept)
}

// Those that are not this literal.
fn others(alloc: Global, literal: Literal, literals: &[Literal]) -> Result<Vec<Literal>, AllocError>
    ensures { IfOk result (λ kept. kept.items ≡ filter (λ m. not (int_eq literal m)) literals.now) }
{
    literals
        .iter()
        .copied()
        .filter(|other| literal.number() != other.number())
        .collect(alloc)
}

// The numbers of the literals. Each is looked at, so that all are known to be literals.
fn numbers(alloc: Global, literals: &[Literal]) -> Result<Vec<i32>, AllocError>
    ensures value { IfOk result (λ numbers. numbers.items ≡ literals.now) }
    ensures each { IfOk result (λ numbers. All IsLiteral numbers.items) }
{
    let mut numbers = Vec::new(alloc);
    for literal in literals {
        numbers.push(literal.number())?;
    }
    Ok(numbers)
}

/// The clause of these literals, behind others, as it is written.
pub(crate) fn push_tidied(
    alloc: Global,
    clauses: &mut Vec<Clause>,
    literals: &[Literal],
) -> Result<(), AllocError>
    ensures { OnOk result (clauses.new.items ≡ clauses.old.items ++ tidied_of (literals.now ∷ [])) }
{
    if has_both_signs(literals) {
        return Ok(());
    }
    let kept = once(alloc, literals)?;
    let numbers = numbers(alloc, kept.as_slice())?;
    let clause = Clause::of_clause(alloc, numbers.as_slice())?;
    clauses.push(clause)?;
    Ok(())
}
