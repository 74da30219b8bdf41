//! From a program and its costs to its plan.

ghost use Rattle.std.specs.Prelude.{◌≡◌, None, IfOk, IfErr, OnOk};
ghost use Rattle.c_tree.specs.Meaning.Claims.{AreCostsOf};
ghost use Rattle.flow_laws.specs.Graphs.{graph};
ghost use Rattle.flow_graph.specs.Limits.{size_fault as plan_refusal};
ghost use Rattle.flow_graph.specs.Plans.{plan_with};
ghost use Rattle.front_end.specs.Refusing.{name_of_block, RefusesPlan};
ghost use Rattle.front_end.specs.Halts.{IsStop};

use crate::refusal::PlanRefusal;
use crate::stop::Stop;
use c_tree::{BlockName, Costs, Name, Program};
use flow_graph::{Plan, PlanFault, plan};
use itoa::Buffer;
use std::alloc::{AllocError, Global};

/// The plan of a program with its costs.
pub(crate) fn plan_of(
    alloc: Global,
    program: Program,
    costs: Costs,
) -> Result<Plan, Stop<PlanRefusal>>
    requires costed { AreCostsOf program costs }
    ensures plan { IfOk result (λ p. p ≡ plan_with program costs) }
    ensures whole { OnOk result (plan_refusal (graph program) ≡ None) }
    ensures stopped { IfErr result (λ stop. IsStop stop (λ r. RefusesPlan r program)) }
{
    let Ok(names) = program.copy(alloc) else {
        return Err(Stop::NoMemory);
    };
    match plan(alloc, program, costs) {
        Ok(plan) => Ok(plan),
        Err(PlanFault::Blocks) => Err(Stop::Refused(PlanRefusal::Blocks)),
        Err(PlanFault::Edges) => Err(Stop::Refused(PlanRefusal::Edges)),
        Err(PlanFault::Cap { block }) => match name_of_block(alloc, &names, block) {
            Ok(name) => Err(Stop::Refused(PlanRefusal::Cap(name))),
            Err(_) => Err(Stop::NoMemory),
        },
        Err(PlanFault::NoMemory) => Err(Stop::NoMemory),
    }
}

// The name of a block: that of its function, a colon and its number.
fn name_of_block(alloc: Global, program: &Program, block: BlockName) -> Result<Name, AllocError>
    ensures { IfOk result (λ name. name ≡ name_of_block program.now block) }
{
    let mut buffer = Buffer::new();
    let mut name = match program.funcs.get(block.func as usize) {
        Some(func) => Vec::from_slice(alloc, func.name.as_slice())?,
        None => Vec::new(alloc),
    };
    name.extend_from_slice(b":")?;
    name.extend_from_slice(buffer.format(block.number).as_bytes())?;
    Name::from_slice(alloc, &name)
}
