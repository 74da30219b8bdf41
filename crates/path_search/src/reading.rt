//! The input that an assignment says.

ghost use Rattle.std.specs.Prelude.{◌≡◌, IfOk, length};
ghost use Rattle.bit_circuits.specs.Formula.{decoded_words};

use bit_blast::{Blasted, decode};
use c_tree::{Input, NoMemory};
use cnf_form::Assignment;
use sqlite_items::Items;
use std::alloc::Global;

/// The input that an assignment to the variables of a formula says.
pub(crate) fn input_said(
    alloc: Global,
    blasted: &Blasted,
    assignment: &Assignment,
) -> Result<Input, NoMemory>
    requires { length assignment.now.values ≡ blasted.now.cnf.variables }
    ensures { IfOk result (λ i. i.values ≡ decoded_words blasted.now.inputs assignment.now.values) }
{
    let values = vec![in alloc; 0i64; blasted.inputs.len()]?;
    let mut input = Input {
        values: Items::from_vec(values),
    };
    decode(blasted, assignment, &mut input);
    Ok(input)
}
