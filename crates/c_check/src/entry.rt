//! The entry function and the inputs of a program.

ghost use Rattle.std.specs.Prelude.{◌≡◌, ◌++◌, ◌∷◌, [], map, replicate, slice_get};
ghost use Rattle.std.specs.Option.{option_copied};
ghost use Rattle.c_tree.specs.Checking.Naming.{entry_number};
ghost use Rattle.c_tree.specs.Checking.Refusals.{func_named, param_inputs, outer_count, outer_inputs};

use c_tree::{Func, RawExpr, RawFunc, RawParam, RawTop};

/// The most input numbers.
const MAX_INPUTS: usize = 64;

/// The first function of this name.
pub(crate) fn func_named<'a>(tops: &'a [RawTop], name: &[u8]) -> Option<&'a RawFunc>
    ensures { option_copied result ≡ func_named name.now tops.now }
{
    for top in tops {
        if let RawTop::Func(func) = top {
            if func.spot.name.as_slice() == name {
                return Some(func);
            }
        }
    }
    None
}

/// The number of the function of this name.
pub(crate) fn entry_number(funcs: &[Func], name: &[u8]) -> Option<usize>
    ensures { result ≡ entry_number funcs.now name.now }
{
    funcs.iter().position(|f| f.name.as_slice() == name)
}

// How many input numbers an extern variable has.
fn outer_count(length: &Option<RawExpr>) -> usize
    ensures { result ≡ outer_count length.now }
{
    match length {
        None => 1,
        Some(e) => c_constants::written_length(e) as usize,
    }
}

// How many input numbers a declaration has, and the place of the name that declares them.
struct Inputs {
    count: usize,
    at: u32,
}

fn inputs_of(top: &RawTop) -> Inputs
    ensures { outer_inputs (top.now ∷ []) ≡ replicate result.count result.at ++ [] }
{
    match top {
        RawTop::Outer(_, _, x, length) => Inputs {
            count: outer_count(length),
            at: x.at,
        },
        RawTop::Global(_, _, _, _, _) => Inputs { count: 0, at: 0 },
        RawTop::Func(_) => Inputs { count: 0, at: 0 },
    }
}

// The place of the input number after `left` of those of the extern variables, if there is one.
fn outer_input_at(tops: &[RawTop], left: usize) -> Option<u32>
    ensures { result ≡ slice_get (outer_inputs tops.now) left }
{
    let mut left = left;
    for top in tops {
        let Inputs { count, at } = inputs_of(top);
        if left < count {
            return Some(at);
        }
        left -= count;
    }
    None
}

/// The place of the 65th input number, if there is one.
#[tactic(auto, using(crate::proofs::InputNumbers::input_numbers))]
pub(crate) fn extra_input(params: &[RawParam], tops: &[RawTop]) -> Option<u32>
    ensures { result ≡ slice_get (map (λ (p : RawParam). p.spot.at) params.now ++ outer_inputs tops.now) 64 }
{
    match params.get(MAX_INPUTS) {
        Some(param) => Some(param.spot.at),
        None => outer_input_at(tops, MAX_INPUTS - params.len()),
    }
}
