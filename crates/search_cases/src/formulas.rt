//! Formulas that are made from numbers.

ghost use Rattle.std.specs.Prelude.{◌≤◌, ◌<◌, ◌*◌, ◌+◌};
ghost use Rattle.cnf_form.specs.Literals.{most};

use crate::random::Draws;
use crate::wrong::Wrong;
use cnf_form::{Clause, Cnf};
use std::alloc::Global;

/// A list of clauses that grows.
#[derive(Drop)]
struct Made {
    alloc: Global,
    clauses: Vec<Clause>,
}

impl Made {
    fn new(alloc: Global) -> Made {
        Made {
            alloc,
            clauses: Vec::new(alloc),
        }
    }

    fn add(&mut self, literals: &[i32]) -> Result<(), Wrong> {
        let clause = Clause::new(self.alloc, literals)?.ok_or(Wrong::NoCase)?;
        self.clauses.push(clause)?;
        Ok(())
    }

    // The second variable is true where the first one is.
    fn add_step(&mut self, from: u32, to: u32) -> Result<(), Wrong>
        requires from { from ≤ most }
        requires to { to ≤ most }
    {
        self.add(&[isnt(from), is(to)])
    }

    // The first variable is true where exactly one of the others is.
    fn add_sum(&mut self, sum: u32, one: u32, other: u32) -> Result<(), Wrong>
        requires sum { sum ≤ most }
        requires one { one ≤ most }
        requires other { other ≤ most }
    {
        self.add(&[isnt(sum), is(one), is(other)])?;
        self.add(&[isnt(sum), isnt(one), isnt(other)])?;
        self.add(&[is(sum), isnt(one), is(other)])?;
        self.add(&[is(sum), is(one), isnt(other)])
    }

    fn formula(self, variables: u32) -> Result<Cnf, Wrong> {
        Cnf::new(variables, self.clauses).ok_or(Wrong::NoCase)
    }
}

// The variable as a literal.
fn is(variable: u32) -> i32
    requires { variable ≤ most }
{
    variable as i32
}

// The variable negated.
fn isnt(variable: u32) -> i32
    requires { variable ≤ most }
{
    -(variable as i32)
}

/// The first variable is true, each follows from the one before it, and the last one is false. First come the steps
/// from the odd variables, then those from the even ones. There are at most a million variables.
pub(crate) fn chain(alloc: Global, variables: u32) -> Result<Cnf, Wrong> {
    if variables > 1_000_000 {
        return Err(Wrong::NoCase);
    }
    let mut made = Made::new(alloc);
    made.add(&[1])?;
    for turn in 0..variables / 2 {
        made.add_step(2 * turn + 1, 2 * turn + 2)?;
    }
    for turn in 1..(variables + 1) / 2 {
        made.add_step(2 * turn, 2 * turn + 1)?;
    }
    made.add(&[isnt(variables)])?;
    made.formula(variables)
}

/// One pigeon more than there are holes, each of them in a hole, and no two in one. There are at most 15 holes.
pub(crate) fn pigeons(alloc: Global, holes: u32) -> Result<Cnf, Wrong> {
    if holes > 15 {
        return Err(Wrong::NoCase);
    }
    let mut made = Made::new(alloc);
    for pigeon in 0..holes + 1 {
        add_pigeon(&mut made, pigeon, holes)?;
    }
    for hole in 0..holes {
        add_hole(&mut made, hole, holes)?;
    }
    made.formula(256)
}

// The variable that says that this pigeon is in this hole.
fn sits(pigeon: u32, hole: u32) -> u32
    requires pigeon { pigeon ≤ 15 }
    requires hole { hole ≤ 15 }
    ensures { result ≤ 256 }
{
    16 * pigeon + hole + 1
}

fn add_pigeon(made: &mut Made, pigeon: u32, holes: u32) -> Result<(), Wrong>
    requires pigeon { pigeon ≤ 15 }
    requires holes { holes ≤ 15 }
{
    let mut literals = Vec::new(made.alloc);
    for hole in 0..holes {
        literals.push(is(sits(pigeon, hole)))?;
    }
    made.add(literals.as_slice())
}

fn add_hole(made: &mut Made, hole: u32, holes: u32) -> Result<(), Wrong>
    requires hole { hole ≤ 15 }
    requires holes { holes ≤ 15 }
{
    for one in 0..holes + 1 {
        for other in one + 1..holes + 1 {
            made.add(&[isnt(sits(one, hole)), isnt(sits(other, hole))])?;
        }
    }
    Ok(())
}

/// The parity of the variables, summed from the front, differs from that summed from the back. There are 1 to 1000 of
/// them.
pub(crate) fn parity(alloc: Global, variables: u32) -> Result<Cnf, Wrong> {
    if variables == 0 || variables > 1000 {
        return Err(Wrong::NoCase);
    }
    let (front, back) = (variables, 2 * variables);
    let mut made = Made::new(alloc);
    add_equal(&mut made, front + 1, 1)?;
    add_equal(&mut made, back + 1, variables)?;
    for turn in 1..variables {
        made.add_sum(front + turn + 1, front + turn, turn + 1)?;
        made.add_sum(back + turn + 1, back + turn, variables - turn)?;
    }
    made.add(&[is(front + variables), is(back + variables)])?;
    made.add(&[isnt(front + variables), isnt(back + variables)])?;
    made.formula(3 * variables)
}

fn add_equal(made: &mut Made, one: u32, other: u32) -> Result<(), Wrong>
    requires one { one ≤ most }
    requires other { other ≤ most }
{
    made.add_step(one, other)?;
    made.add_step(other, one)
}

/// So many clauses of three literals each, drawn from a seed. There are 3 to 1000 variables.
pub(crate) fn random(alloc: Global, variables: u32, clauses: u32, seed: u32) -> Result<Cnf, Wrong> {
    if variables < 3 || variables > 1000 {
        return Err(Wrong::NoCase);
    }
    let mut draws = Draws::new(seed);
    let mut made = Made::new(alloc);
    for _clause in 0..clauses {
        made.add(&draws.clause(variables))?;
    }
    made.formula(variables)
}
