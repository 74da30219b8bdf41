//! Gates, one after the other.

ghost use Rattle.std.specs.Prelude.{◌+◌, ◌<◌, ◌≤◌, ◌^◌, length, IfOk};

use crate::gate::Gate;
use crate::literal::Literal;
use std::alloc::AllocError;

/// Gates, whose variables are numbered in order. They fit the numbers of variables.
#[derive(Drop)]
pub struct Netlist {
    pub first: u32,
    pub gates: Vec<Gate>,
    ghost some: { 1 < first },
    ghost few: { first + length gates.items ≤ 2 ^ 31 },
}

impl Netlist {
    ghost use Rattle.bit_circuits.specs.Circuits.{gate};
    ghost use Rattle.bit_circuits.specs.Runs.{Adds};

    /// One gate more: its variable.
    pub fn add(&mut self, new: Gate) -> Result<Literal, AllocError>
        ensures { IfOk result (λ l. Adds (gate new) self.old self.new l) }
    {
        let next = u64::from(self.first) + self.gates.len() as u64;
        if next >= 2_147_483_648 {
            return Err(AllocError);
        }
        self.gates.push(new)?;
        Ok(Literal::of_variable(next as u32))
    }
}
