//! The input that an assignment says.

ghost use Rattle.std.specs.Prelude.{◌≡◌, ◌<◌, false, length, slice_index_or};
ghost use Rattle.cnf_form.specs.Truth.{literal_true};
ghost use Rattle.bv_term.specs.Words.{flag as flag_of};
ghost use Rattle.bit_circuits.specs.Words.{word_value};
ghost use Rattle.bit_circuits.specs.Formula.{input_bits, number_read, decoded_words};

use crate::blasted::Blasted;
use c_tree::Input;
use cnf_form::Assignment;

/// The input that an assignment to the variables of a formula says: the number of each input is read from its 32
/// variables, as signed or not. It takes no memory.
pub fn decode(blasted: &Blasted, assignment: &Assignment, into: &mut Input)
    requires inputs { length into.old.values ≡ length blasted.now.inputs }
    requires variables { length assignment.now.values ≡ blasted.now.cnf.variables }
    ensures { into.new.values ≡ decoded_words blasted.now.inputs assignment.now.values }
{
    let inputs = blasted.inputs.as_slice();
    for n in 0..inputs.len() {
        let word = word_at(assignment.values(), n);
        into.values.set(n, number_of(inputs[n], word));
    }
}

// The word of input number `n`, bit by bit from the highest on.
fn word_at(values: &[bool], n: usize) -> u32
    requires { n < 64 }
    ensures { result ≡ word_value (literal_true values.now) (input_bits n) }
{
    let mut word = 0;
    for bit in (0..32usize).rev() {
        word = 2 * word + flag(value_at(values, 1 + 32 * n + bit));
    }
    word
}

// 1 or 0.
fn flag(holds: bool) -> u32
    ensures { result ≡ flag_of holds }
{
    if holds { 1 } else { 0 }
}

// The value of the variable at this place; past the list it is false.
fn value_at(values: &[bool], place: usize) -> bool
    ensures { result ≡ slice_index_or values.now place false }
{
    place < values.len() && values[place]
}

// The number of a word, which is read as signed or not.
fn number_of(signed: bool, word: u32) -> i64
    ensures { result ≡ number_read signed word }
{
    if signed {
        i64::from(word.cast_signed())
    } else {
        i64::from(word)
    }
}
