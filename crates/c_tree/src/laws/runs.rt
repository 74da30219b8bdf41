//! Worked runs of whole programs. A run's cost is None where it does not end.

ghost use Rattle.std.specs.Prelude.{◌≡◌, Some, None, [], ◌∷◌, pos, neg_ℤ};
ghost use Rattle.c_tree.specs.declared.tree.Ty.TheVariants as ty;
ghost use Rattle.c_tree.specs.declared.tree.BinOp.TheVariants as bin;
ghost use Rattle.c_tree.specs.declared.tree.Var.TheVariants.{Local};
ghost use Rattle.c_tree.specs.declared.tree.Target.TheVariants as target;
ghost use Rattle.c_tree.specs.declared.tree.Stmt.TheVariants.{Call};
ghost use Rattle.c_tree.specs.Meaning.Runs.{run, IsUndefined, IsOverBound};
ghost use Rattle.c_tree.specs.Meaning.Worked.{num, ones, input, cost_at};
ghost use Rattle.c_tree.specs.Meaning.Worked.{return_of_zero, two_thresholds, two_thresholds_costs, overflow_guard};
ghost use Rattle.c_tree.specs.Meaning.Worked.{counted_while, counted_do, triangular_loops, triangular_loops_costs};
ghost use Rattle.c_tree.specs.Meaning.Worked.{division_by_zero, op_program, guarded_division, masked_index};
ghost use Rattle.c_tree.specs.Meaning.Worked.{missing_result, clamp_filter, clamp_filter_costs, samples};
ghost use Rattle.c_tree.specs.Meaning.Worked.{one_or_x, own_initialiser, initialised_by_call};

/// Runs without a loop.
pub fn straight_runs()
    // one block
    ensures return_of_zero { cost_at return_of_zero ones [] ≡ Some 1 }

    // the blocks 0, 1, 3 and 5 once; above 10 also 2, which costs 50, and below 5 also 4, which costs 40
    ensures between { cost_at two_thresholds two_thresholds_costs (pos 7 ∷ []) ≡ Some 4 }
    ensures above { cost_at two_thresholds two_thresholds_costs (pos 11 ∷ []) ≡ Some 54 }
    ensures below { cost_at two_thresholds two_thresholds_costs (pos 4 ∷ []) ≡ Some 44 }

    // an `int` that overflows is undefined; an `unsigned` wraps, so that 0 < 2^32 - 1
    ensures no_overflow { cost_at (overflow_guard ty.Int) ones (pos 5 ∷ []) ≡ Some 3 }
    ensures overflows { run (overflow_guard ty.Int) (input (pos 2147483647 ∷ [])) ≡ IsUndefined }
    ensures wraps { cost_at (overflow_guard ty.Unsigned) ones (pos 4294967295 ∷ []) ≡ Some 4 }
{}

/// Runs of loops.
pub fn loop_runs()
    // the declaration, the condition n + 1 times, the body n times, and the return; an 11th entry is over the bound
    ensures while_ten { cost_at counted_while ones (pos 10 ∷ []) ≡ Some 23 }
    ensures while_none { cost_at counted_while ones (neg_ℤ (pos 3) ∷ []) ≡ Some 3 }
    ensures while_over { run counted_while (input (pos 11 ∷ [])) ≡ IsOverBound }

    // the declaration, body and condition 3 times each, and the return; the body is entered at least once
    ensures do_three { cost_at counted_do ones (pos 3 ∷ []) ≡ Some 8 }
    ensures do_once { cost_at counted_do ones (neg_ℤ (pos 3) ∷ []) ≡ Some 4 }
    ensures do_over { run counted_do (input (pos 4 ∷ [])) ≡ IsOverBound }

    // the innermost block is the 8th, and is entered 0 + 1 + 2 + 3 times
    ensures triangle { cost_at triangular_loops triangular_loops_costs [] ≡ Some 60 }
{}

/// Runs into what is undefined.
pub fn undefined_runs()
    ensures by_zero { run division_by_zero (input (pos 1 ∷ [])) ≡ IsUndefined }

    // -2^31 by -1 is out of range, for the remainder too
    ensures least { run (op_program bin.Div) (input (neg_ℤ (pos 2147483648) ∷ neg_ℤ (pos 1) ∷ [])) ≡ IsUndefined }
    ensures least_rest { run (op_program bin.Rem) (input (neg_ℤ (pos 2147483648) ∷ neg_ℤ (pos 1) ∷ [])) ≡ IsUndefined }

    // the right operand of `&&` is not evaluated where the left is 0: the declaration, the condition, the return
    ensures guarded { cost_at guarded_division ones (pos 0 ∷ []) ≡ Some 3 }
    ensures guard_holds { cost_at guarded_division ones (pos 3 ∷ []) ≡ Some 4 }

    // 4 & 7 is outside an array of 4, 3 & 7 is not
    ensures outside { run masked_index (input (pos 4 ∷ pos 0 ∷ pos 0 ∷ pos 0 ∷ pos 0 ∷ [])) ≡ IsUndefined }
    ensures inside { cost_at masked_index ones (pos 3 ∷ pos 0 ∷ pos 0 ∷ pos 0 ∷ pos 0 ∷ []) ≡ Some 1 }
{}

/// Runs with calls.
pub fn call_runs()
    // the result of a function whose end was reached is used; or it is not, and three blocks of `main` are entered
    ensures missing { run (missing_result (Call (target.Assign (Local 0)) 0 [])) (input []) ≡ IsUndefined }
    ensures not_used { cost_at (missing_result (Call target.Nothing 0 [])) ones [] ≡ Some 3 }

    // four turns of 2 + 6 + (2 + 2 + 7) + 2 + 2 + 14 + 2 = 39, and the declarations, `i = 0`, the last condition and
    // the return, each 2
    ensures filter { cost_at clamp_filter clamp_filter_costs (samples 200 2) ≡ Some 164 }
{}

/// A local is unset each time its declaration is reached, in its own initialiser too.
pub fn own_initialisers()
    // at n = 2 the first turn chooses 1 and the second reads x; at n = 0 there is no turn
    ensures no_turn { cost_at own_initialiser ones (pos 0 ∷ []) ≡ Some 2 }
    ensures first_turn { run own_initialiser (input (pos 1 ∷ [])) ≡ IsUndefined }
    ensures second_turn { run own_initialiser (input (pos 2 ∷ [])) ≡ IsUndefined }

    // the same of a call's argument; at n = 2 there are two turns of condition, call, callee and assignment, and then
    // the last condition and the return
    ensures argument { run (initialised_by_call one_or_x) (input (pos 1 ∷ [])) ≡ IsUndefined }
    ensures argument_again { run (initialised_by_call one_or_x) (input (pos 2 ∷ [])) ≡ IsUndefined }
    ensures other_argument { cost_at (initialised_by_call (num 5)) ones (pos 2 ∷ []) ≡ Some 10 }
{}
