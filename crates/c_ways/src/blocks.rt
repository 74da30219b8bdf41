//! The costs of blocks that are entered, modulo 2^128.

ghost use Rattle.std.specs.Prelude.{◌≡◌, ◌+◌, ◌%◌, ◌^◌, true, false};
ghost use Rattle.c_tree.specs.Meaning.Statements.{block};
ghost use Rattle.c_tree.specs.Meaning.Claims.{block_cost};

use c_tree::Costs;

/// The cost with that of a block added.
pub fn with_block(cost: u128, costs: &Costs, func: u32, at: usize) -> u128
    ensures { result ≡ (cost + block_cost costs.now (block func at)) % 2 ^ 128 }
{
    let more = match costs.by_func.get(func as usize) {
        None => 0,
        Some(row) => row.get(at).copied().unwrap_or(0),
    };
    cost.wrapping_add(u128::from(more))
}

/// The cost with that of the block that a simple statement begins, unless a run of them goes on.
pub fn with_run(cost: u128, costs: &Costs, func: u32, at: usize, run: bool) -> u128
    ensures on { run ≡ true → result ≡ cost }
    ensures begun { run ≡ false → result ≡ (cost + block_cost costs.now (block func at)) % 2 ^ 128 }
{
    if run {
        cost
    } else {
        with_block(cost, costs, func, at)
    }
}
