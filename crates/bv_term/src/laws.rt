//! The laws of stores of terms. These functions do nothing: their contracts are facts about the definitions.

ghost use Rattle.std.specs.Prelude.{◌≡◌, ◌<◌, ◌^◌, ℕ, Bool, true, List, Some, length, slice_get};
ghost use Rattle.c_tree.specs.declared.program.Input.{Input};
ghost use Rattle.bv_term.specs.declared.op.Op.{Op};
ghost use Rattle.bv_term.specs.Words.{op_word};
ghost use Rattle.bv_term.specs.Stores.{Terms, AreTerms, FitsOp, ops_with, op_number, input_word, tv, fits_store};

/// An operator that was put is found at its number.
pub fn what_is_put_is_found()
    ensures { (o : Op) (ops : List Op) → slice_get (ops_with o ops) (op_number o ops) ≡ Some o }
{}

/// Putting an operator keeps the terms that were there, and their words at every input.
pub fn putting_keeps_terms()
    ensures ops { (o : Op) (ops : List Op) (t : ℕ) (x : Op) → slice_get ops t ≡ Some x → slice_get (ops_with o ops) t
        ≡ Some x }
    ensures words { (inputs : List Bool) (o : Op) (ops : List Op) (i : Input) (t : ℕ) → t < length ops
        → tv (record { inputs = inputs; ops = ops_with o ops }) t i ≡ tv (record { inputs = inputs; ops = ops }) t i }
{}

/// The word of each term is that of its operator, over the words of all terms of the store.
pub fn words_are_of_operators()
    ensures { (terms : Terms) (i : Input) (t : ℕ) (o : Op) → AreTerms terms → slice_get terms.ops t ≡ Some o
        → tv terms t i ≡ op_word (input_word i.values) (λ s. tv terms s i) o }
{}

/// At an input that fits the store, the word of each term is below 2^32.
pub fn words_have_32_bits()
    ensures { (terms : Terms) (i : Input) (t : ℕ) → AreTerms terms → fits_store terms i ≡ true → tv terms t i < 2 ^ 32 }
{}
