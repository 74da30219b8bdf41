//! Scales and spans.

ghost use Rattle.std.specs.Prelude.{◌≡◌, ℕ, Bool, [], length, sum};
ghost use Rattle.c_tree.specs.declared.tree.Stmt.{Stmt};
ghost use Rattle.c_tree.specs.Meaning.Blocks.{blocks};
ghost use Rattle.c_tree.specs.Meaning.Spans.{scales, span};

/// There is one scale for each block of a statement.
pub fn each_block_has_a_scale()
    ensures { (k : ℕ) (st : Stmt) (run : Bool) → length (scales k st run) ≡ blocks st run }
{}

/// Where each callee's span is 0, a statement's span is the sum of its scales.
pub fn spans_are_sums_of_scales()
    ensures { (k : ℕ) (st : Stmt) (run : Bool) → span [] k st run ≡ sum (scales k st run) }
{}
