//! The costs of a program's blocks.

ghost use Rattle.std.specs.Prelude.{◌≡◌, ◌≤◌, length, IfOk, IfErr};
ghost use Rattle.c_tree.specs.Meaning.Claims.{AreCostsOf};
ghost use Rattle.cost_table.specs.Tables.{IsTable};
ghost use Rattle.front_end.specs.Refusing.{RefusesTable};
ghost use Rattle.front_end.specs.Halts.{IsStop, table_stop};

use crate::refusal::TableRefusal;
use crate::stop::Stop;
use c_tree::{Costs, Program};
use cost_table::{CostFault, costs};
use std::alloc::Global;

/// The costs that a table gives to the blocks of a program.
pub(crate) fn costs_of(
    alloc: Global,
    program: &Program,
    table: &[u8],
) -> Result<Costs, Stop<TableRefusal>>
    requires { length table.now ≤ 1048576 }
    ensures table { IfOk result (IsTable table.now program.now) }
    ensures costs { IfOk result (AreCostsOf program.now) }
    ensures stopped { IfErr result (λ stop. IsStop stop (λ r. RefusesTable r program.now table.now)) }
{
    match costs(alloc, program, table) {
        Ok(costs) => Ok(costs),
        Err(fault) => Err(table_stop(fault)),
    }
}

fn table_stop(fault: CostFault) -> Stop<TableRefusal>
    ensures { result ≡ table_stop fault }
{
    match fault {
        CostFault::NotToml => Stop::Refused(TableRefusal::NotToml),
        CostFault::Version => Stop::Refused(TableRefusal::Version),
        CostFault::Key { name } => Stop::Refused(TableRefusal::Key(name)),
        CostFault::Block { name } => Stop::Refused(TableRefusal::Block(name)),
        CostFault::Number { name } => Stop::Refused(TableRefusal::Number(name)),
        CostFault::Missing { name } => Stop::Refused(TableRefusal::Missing(name)),
        CostFault::NoMemory => Stop::NoMemory,
    }
}
