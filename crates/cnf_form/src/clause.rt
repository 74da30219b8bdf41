//! Clauses.

ghost use Rattle.std.specs.Prelude.{◌≡◌, ◌≢◌, ◌↔◌, IsTrue, IsSome, IfSome, IfOk, All, Any, unsigned_abs};
ghost use Rattle.cnf_form.specs.Literals.{IsLiteral, IsClause, NamesOnce, NamesUpTo};

use smallvec::SmallVec;
use std::alloc::{AllocError, Global};
use std::marker::Model;
use wc_outside::NoMemory;

/// A clause: a disjunction of literals, which contracts see as their list. A literal is the number of a variable, from
/// 1 to 2,147,483,647, or that number negated. No two literals are of one variable. The empty clause is false.
#[derive(Debug, Drop)]
pub struct Clause {
    literals: SmallVec<i32, 4>,
}

impl Model for Clause {
    ghost use Rattle.std.specs.Prelude.{List, ℤ};
    ghost use Rattle.cnf_form.specs.Literals.{IsClause};

    ghost Value = { List ℤ };

    ghost view = { λ c. c.literals.items };

    ghost invariant = { λ c. IsClause c.literals.items };
}

impl Clause {
    /// The clause of these literals, in this order; `None` exactly where one of them is no literal, or two are of one
    /// variable.
    pub fn new(alloc: Global, literals: &[i32]) -> Result<Option<Clause>, NoMemory>
        ensures made { IfOk result (λ made. IsSome made ↔ IsClause literals.now) }
        ensures literals { IfOk result (λ made. IfSome made (λ clause. clause ≡ literals.now)) }
    {
        if !is_clause(literals) {
            return Ok(None);
        }
        match SmallVec::from_slice(alloc, literals) {
            Ok(literals) => Ok(Some(Clause { literals })),
            Err(_) => Err(NoMemory),
        }
    }

    /// The clause of these literals, in this order, where it is known that they are literals and that no two are of one
    /// variable. So nothing is tested, and it fails for want of memory alone.
    pub fn of_clause(alloc: Global, literals: &[i32]) -> Result<Clause, AllocError>
        requires { IsClause literals.now }
        ensures { IfOk result (λ clause. clause ≡ literals.now) }
    {
        let literals = SmallVec::from_slice(alloc, literals)?;
        Ok(Clause { literals })
    }

    /// The literals, in order.
    pub fn literals(&self) -> &[i32]
        ensures value { result.now ≡ self.now }
        ensures clause { IsClause result.now }
    {
        self.literals.as_slice()
    }

    /// Whether each literal is of a variable from 1 to `variables`.
    pub fn names_up_to(&self, variables: u32) -> bool
        ensures { IsTrue result ↔ NamesUpTo variables self.now }
    {
        names_up_to(self.literals(), variables)
    }
}

/// Whether each of these literals is of a variable from 1 to `variables`.
pub(crate) fn names_up_to(literals: &[i32], variables: u32) -> bool
    ensures { IsTrue result ↔ NamesUpTo variables literals.now }
{
    literals
        .iter()
        .all(|literal| literal.unsigned_abs() <= variables)
}

// Whether these are literals, no two of one variable.
fn is_clause(literals: &[i32]) -> bool
    ensures { IsTrue result ↔ IsClause literals.now }
{
    are_literals(literals) && names_once(literals)
}

fn are_literals(literals: &[i32]) -> bool
    ensures { IsTrue result ↔ All IsLiteral literals.now }
{
    literals.iter().all(|literal| is_literal(*literal))
}

// Whether no two of the literals are of one variable.
fn names_once(literals: &[i32]) -> bool
    ensures { IsTrue result ↔ NamesOnce literals.now }
{
    for (i, literal) in literals.iter().enumerate() {
        if names(&literals[..i], *literal) {
            return false;
        }
    }
    true
}

fn is_literal(literal: i32) -> bool
    ensures { IsTrue result ↔ IsLiteral literal }
{
    literal != 0 && literal != i32::MIN
}

// Whether one of the literals is of this literal's variable.
fn names(literals: &[i32], literal: i32) -> bool
    ensures { IsTrue result ↔ Any (λ other. unsigned_abs other ≡ unsigned_abs literal) literals.now }
{
    literals
        .iter()
        .any(|other| other.unsigned_abs() == literal.unsigned_abs())
}
