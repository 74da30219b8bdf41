//! The cost of a run.

ghost use Rattle.std.specs.Prelude.{◌≡◌, ◌<◌, ◌^◌, ℕ, List, slice_get, unwrap_or};
ghost use Rattle.c_tree.specs.declared.program.BlockName.{BlockName};
ghost use Rattle.c_tree.specs.declared.program.Input.{Input};
ghost use Rattle.c_tree.specs.Meaning.Claims.{block_cost, trace_cost};
ghost use Rattle.c_tree.specs.Meaning.Runs.{Ended, run};
ghost use Rattle.c_tree.specs.Keeping.WellFormed.{WellFormed};

use c_tree::{Costs, Program};

/// The cost of every run of a well-formed program is less than 2^128, since no trace is longer than 2^64 and no block
/// costs as much as 2^32. It leaves both as they are.
pub fn costs_of_runs_fit(program: &Program, costs: &Costs)
    requires formed { WellFormed program.now }
    ensures { (i : Input) (u : List BlockName) → run program.now i ≡ Ended u → trace_cost costs.now u < 2 ^ 128 }
{
    costs_are_small(costs);
}

// The numbers of a row are less than 2^32.
fn row_is_small(row: &[u32])
    ensures { (n : ℕ) → unwrap_or (slice_get row.now n) 0 < 2 ^ 32 }
{}

/// Each block's cost is less than 2^32, as the type of the table says. It leaves the table as it is.
pub fn costs_are_small(costs: &Costs)
    ensures { (b : BlockName) → block_cost costs.now b < 2 ^ 32 }
{
    let rows = costs.by_func.as_slice();
    for row in rows {
        row_is_small(row.as_slice());
    }
}
