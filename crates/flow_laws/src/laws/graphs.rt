//! Worked graphs: their edges, nodes and loop copies.

ghost use Rattle.std.specs.Prelude.{◌≡◌, Some, None, [], ◌∷◌, ◌++◌, true, false, pos, length, slice_get};
ghost use Rattle.c_tree.specs.declared.tree.Ty.TheVariants as ty;
ghost use Rattle.c_tree.specs.declared.tree.Target.TheVariants as target;
ghost use Rattle.c_tree.specs.declared.tree.BinOp.TheVariants as bin;
ghost use Rattle.c_tree.specs.declared.tree.Var.TheVariants.{Local, Global};
ghost use Rattle.c_tree.specs.declared.tree.Expr.TheVariants.{Bin, Elem};
ghost use Rattle.c_tree.specs.declared.tree.Stmt.TheVariants.{Call};
ghost use Rattle.c_tree.specs.Meaning.Statements.{block};
ghost use Rattle.c_tree.specs.Meaning.Worked.{
  two_thresholds,
  two_thresholds_costs,
  overflow_guard,
  triangular_loops,
  local,
};
ghost use Rattle.c_tree.specs.Meaning.Worked.{initialised_by_call, missing_result};
ghost use Rattle.c_tree.specs.Meaning.Worked.{num, sets, clamp_filter, samples, input};
ghost use Rattle.flow_laws.specs.Graphs.{graph, edges, loop_copies, loops};
ghost use Rattle.flow_laws.specs.Paths.{
  end_node,
  follows,
  leaving_count,
  arriving_count,
  edge_count,
  price,
  edge_cost,
  keeps,
  turns_left,
};
ghost use Rattle.flow_laws.specs.Paths.{allows, each_allows};
ghost use Rattle.flow_laws.specs.Driving.{drives};
ghost use Rattle.flow_laws.specs.Claims.{IsDrivenList};
ghost use Rattle.flow_laws.specs.WorkedGraphs.{
  leaves_next,
  leaves_true,
  leaves_false,
  loop,
  do_loop,
  blocks_of,
  chains_of,
  caps_of,
};
ghost use Rattle.flow_laws.specs.WorkedGraphs.{calls_of, loop_copy, to_the_loop, low_turn};
ghost use Rattle.flow_laws.specs.WorkedGraphs.{three_low_turns, four_low_turns};
ghost use Rattle.flow_laws.specs.BlockLists.{blocks_of_func, Run, Asks, Gives, Calls};
ghost use Rattle.flow_laws.specs.WorkedGraphs.{empty_main, groups_and_rest, empty_for, empty_while, empty_do};
ghost use Rattle.flow_laws.specs.WorkedGraphs.{nested_do};
ghost use Rattle.flow_laws.specs.WorkedGraphs.{jumps_in_while, jumps_in_do, jumps_in_for, jumps_without_step};
ghost use Rattle.flow_laws.specs.WorkedGraphs.{end_is_reached, nested_calls};

/// Two choices: the edges, the blocks, and the path above both thresholds with its costs.
pub fn two_choices()
    ensures edges { edges (graph two_thresholds) ≡ leaves_next 0 2 ∷ leaves_next 2 3 ∷ leaves_true 3 4
        ∷ leaves_false 3 5 ∷ leaves_next 4 5
        ∷ leaves_true 5 6 ∷ leaves_false 5 7 ∷ leaves_next 6 7 ∷ leaves_next 7 1 ∷ [] }
    ensures blocks { blocks_of two_thresholds ≡ None ∷ None ∷ Some (block 0 0) ∷ Some (block 0 1) ∷ Some (block 0 2)
        ∷ Some (block 0 3) ∷ Some (block 0 4) ∷ Some (block 0 5) ∷ [] }
    ensures caps { caps_of two_thresholds ≡ 1 ∷ 1 ∷ 1 ∷ 1 ∷ 1 ∷ 1 ∷ 1 ∷ 1 ∷ [] }
    ensures path { end_node (edges (graph two_thresholds)) 0 (0 ∷ 1 ∷ 2 ∷ 4 ∷ 6 ∷ 8 ∷ []) ≡ Some 1 }
    ensures price { price two_thresholds_costs (graph two_thresholds) (0 ∷ 1 ∷ 2 ∷ 4 ∷ 6 ∷ 8 ∷ []) ≡ 54 }
    ensures leaving { leaving_count (edges (graph two_thresholds)) (0 ∷ 1 ∷ 2 ∷ 4 ∷ 6 ∷ 8 ∷ []) 5 ≡ 1 }
    ensures arriving { arriving_count (edges (graph two_thresholds)) (0 ∷ 1 ∷ 2 ∷ 4 ∷ 6 ∷ 8 ∷ []) 5 ≡ 1 }
    ensures into_exit { arriving_count (edges (graph two_thresholds)) (0 ∷ 1 ∷ 2 ∷ 4 ∷ 6 ∷ 8 ∷ []) 1 ≡ 1 }
    ensures statements { slice_get (blocks_of_func two_thresholds 0) 2 ≡ Some (Run (sets 1 None (num 1) ∷ [])) }
    ensures many { length (blocks_of_func two_thresholds 0) ≡ 6 }
    ensures broken { follows (edges (graph two_thresholds)) (0 ∷ 1 ∷ 2 ∷ 5 ∷ []) ≡ false }
    ensures entry_costs_nothing { edge_cost two_thresholds_costs (graph two_thresholds) 0 ≡ 0 }
    ensures guard { edges (graph (overflow_guard ty.Int))
        ≡ leaves_next 0 2 ∷ leaves_next 2 3 ∷ leaves_true 3 4 ∷ leaves_false 3 5 ∷ leaves_next 4 5 ∷ leaves_next 5 1
        ∷ [] }
{}

/// No statement; a choice of two empty lists; groups, which end blocks; and what is behind a `return`, which has nodes
/// to which no edge leads.
pub fn straight_graphs()
    ensures none { edges (graph empty_main) ≡ leaves_next 0 1 ∷ [] }
    ensures groups { edges (graph groups_and_rest) ≡ leaves_next 0 2 ∷ leaves_true 2 3 ∷ leaves_false 2 3
        ∷ leaves_next 3 4 ∷ leaves_next 4 5 ∷ leaves_next 5 6
        ∷ leaves_next 6 1 ∷ leaves_next 7 1 ∷ [] }
{}

/// Loops with empty bodies: the `True` of `while` and of a `for` without step joins the condition as if from the body,
/// so it is not among `into`; that of `do` is joined by what enters the body.
pub fn empty_loops()
    ensures for_edges { edges (graph empty_for) ≡ leaves_next 0 2 ∷ leaves_next 2 3 ∷ leaves_true 3 3
        ∷ leaves_false 3 4 ∷ leaves_next 4 1 ∷ [] }
    ensures for_loops { loops (graph empty_for) ≡ loop 3 (1 ∷ []) 2 ∷ [] }
    ensures for_caps { caps_of empty_for ≡ 1 ∷ 1 ∷ 1 ∷ 4 ∷ 1 ∷ [] }
    ensures while_edges { edges (graph empty_while) ≡ leaves_next 0 2 ∷ leaves_true 2 2 ∷ leaves_false 2 3
        ∷ leaves_next 3 1 ∷ [] }
    ensures while_loops { loops (graph empty_while) ≡ loop 3 (0 ∷ []) 1 ∷ [] }
    ensures do_edges { edges (graph empty_do) ≡ leaves_next 0 2 ∷ leaves_true 2 2 ∷ leaves_false 2 3 ∷ leaves_next 3 1
        ∷ [] }
    ensures do_loops { loops (graph empty_do) ≡ do_loop 3 (0 ∷ []) 1 ∷ [] }
    ensures do_caps { caps_of empty_do ≡ 1 ∷ 1 ∷ 3 ∷ 1 ∷ [] }

    // three turns of `for` are within its bound, four are not; of `do`, two are, and three are not
    ensures for_keeps { keeps (loop 3 (1 ∷ []) 2) (0 ∷ 1 ∷ 2 ∷ 2 ∷ 2 ∷ 3 ∷ 4 ∷ []) ≡ true }
    ensures for_breaks { keeps (loop 3 (1 ∷ []) 2) (0 ∷ 1 ∷ 2 ∷ 2 ∷ 2 ∷ 2 ∷ []) ≡ false }
    ensures do_keeps { keeps (do_loop 3 (0 ∷ []) 1) (0 ∷ 1 ∷ 1 ∷ 2 ∷ 3 ∷ []) ≡ true }
    ensures do_breaks { keeps (do_loop 3 (0 ∷ []) 1) (0 ∷ 1 ∷ 1 ∷ 1 ∷ []) ≡ false }
    ensures enters_again { keeps (loop 1 (1 ∷ []) 2) (2 ∷ 2 ∷ 1 ∷ 2 ∷ 1 ∷ 2 ∷ []) ≡ true }
{}

/// A loop in a loop. Two `do` that begin at one node: the outer one's `True` enters the inner one.
pub fn nested_loops()
    ensures for_edges { edges (graph triangular_loops)
        ≡ leaves_next 0 2 ∷ leaves_next 2 3 ∷ leaves_next 3 4 ∷ leaves_true 4 6 ∷ leaves_false 4 10 ∷ leaves_next 5 4
        ∷ leaves_next 6 7 ∷ leaves_true 7 9 ∷ leaves_false 7 5 ∷ leaves_next 8 7 ∷ leaves_next 9 8 ∷ leaves_next 10 1
        ∷ [] }
    ensures for_loops { loops (graph triangular_loops) ≡ loop 4 (2 ∷ []) 3 ∷ loop 3 (6 ∷ []) 7 ∷ [] }
    ensures for_copies { loop_copies (graph triangular_loops)
        ≡ loop_copy 4 10 4 4 false ∷ loop_copy 7 10 7 3 false ∷ [] }
    ensures for_caps { caps_of triangular_loops ≡ 1 ∷ 1 ∷ 1 ∷ 1 ∷ 5 ∷ 4 ∷ 4 ∷ 16 ∷ 12 ∷ 12 ∷ 1 ∷ [] }
    ensures do_edges { edges (graph nested_do)
        ≡ leaves_next 0 2 ∷ leaves_next 2 3 ∷ leaves_true 3 2 ∷ leaves_false 3 4 ∷ leaves_true 4 2 ∷ leaves_false 4 5
        ∷ leaves_next 5 1 ∷ [] }
    ensures do_loops { loops (graph nested_do) ≡ do_loop 2 (0 ∷ 4 ∷ []) 2 ∷ do_loop 3 (0 ∷ []) 4 ∷ [] }
    ensures do_copies { loop_copies (graph nested_do) ≡ loop_copy 2 4 3 2 true ∷ loop_copy 2 5 4 3 true ∷ [] }
    ensures do_caps { caps_of nested_do ≡ 1 ∷ 1 ∷ 6 ∷ 6 ∷ 3 ∷ 1 ∷ [] }
{}

/// `break` and `continue` in each kind of loop: `continue` leads to the condition, in a `for` with a step to the step.
pub fn jumps()
    ensures in_while { edges (graph jumps_in_while)
        ≡ leaves_next 0 2 ∷ leaves_true 2 3 ∷ leaves_false 2 8 ∷ leaves_true 3 4 ∷ leaves_false 3 5 ∷ leaves_next 4 8
        ∷ leaves_true 5 6 ∷ leaves_false 5 7 ∷ leaves_next 6 2 ∷ leaves_next 7 2 ∷ leaves_next 8 1 ∷ [] }
    ensures in_do { edges (graph jumps_in_do)
        ≡ leaves_next 0 2 ∷ leaves_true 2 3 ∷ leaves_false 2 4 ∷ leaves_next 3 8 ∷ leaves_true 4 5 ∷ leaves_false 4 6
        ∷ leaves_next 5 7
        ∷ leaves_next 6 7 ∷ leaves_true 7 2 ∷ leaves_false 7 8 ∷ leaves_next 8 1 ∷ [] }
    ensures in_for { edges (graph jumps_in_for)
        ≡ leaves_next 0 2 ∷ leaves_next 2 3 ∷ leaves_true 3 5 ∷ leaves_false 3 10 ∷ leaves_next 4 3 ∷ leaves_true 5 6
        ∷ leaves_false 5 7
        ∷ leaves_next 6 10 ∷ leaves_true 7 8 ∷ leaves_false 7 9 ∷ leaves_next 8 4 ∷ leaves_next 9 4 ∷ leaves_next 10 1
        ∷ [] }
    ensures without_step { edges (graph jumps_without_step)
        ≡ leaves_next 0 2 ∷ leaves_true 2 3 ∷ leaves_false 2 8 ∷ leaves_true 3 4 ∷ leaves_false 3 5 ∷ leaves_next 4 8
        ∷ leaves_true 5 6 ∷ leaves_false 5 7 ∷ leaves_next 6 2 ∷ leaves_next 7 2 ∷ leaves_next 8 1 ∷ [] }
    ensures while_loops { loops (graph jumps_in_while) ≡ loop 3 (0 ∷ []) 1 ∷ [] }
    ensures do_loops { loops (graph jumps_in_do) ≡ do_loop 3 (0 ∷ []) 8 ∷ [] }
    ensures for_loops { loops (graph jumps_in_for) ≡ loop 3 (1 ∷ []) 2 ∷ [] }
{}

/// A call in a loop: the call's node, the callee's, the landing, and the chains and caps of all. A callee whose end is
/// reached, and one without statements, lead to the landing. Calls in calls.
pub fn calls()
    ensures edges { edges (graph (initialised_by_call (local 0)))
        ≡ leaves_next 0 2 ∷ leaves_true 2 3 ∷ leaves_false 2 7 ∷ leaves_next 3 4 ∷ leaves_next 4 5
        ∷ leaves_next 5 6 ∷ leaves_next 6 2 ∷ leaves_next 7 1 ∷ [] }
    ensures blocks { blocks_of (initialised_by_call (local 0)) ≡ None ∷ None ∷ Some (block 1 0) ∷ Some (block 1 1)
        ∷ Some (block 0 0) ∷ None ∷ Some (block 1 2) ∷ Some (block 1 3) ∷ [] }
    ensures chains { chains_of (initialised_by_call (local 0))
        ≡ [] ∷ [] ∷ [] ∷ [] ∷ (block 1 1 ∷ []) ∷ [] ∷ [] ∷ [] ∷ [] }
    ensures landing { calls_of (initialised_by_call (local 0))
        ≡ None ∷ None ∷ None ∷ None ∷ None ∷ Some (block 1 1) ∷ None ∷ None ∷ [] }
    ensures caps { caps_of (initialised_by_call (local 0)) ≡ 1 ∷ 1 ∷ 3 ∷ 2 ∷ 2 ∷ 2 ∷ 2 ∷ 1 ∷ [] }
    ensures end { edges (graph end_is_reached)
        ≡ leaves_next 0 2 ∷ leaves_next 2 3 ∷ leaves_next 3 4 ∷ leaves_true 4 5 ∷ leaves_false 4 6 ∷ leaves_next 5 6
        ∷ leaves_next 6 7
        ∷ leaves_next 7 1 ∷ [] }
    ensures none { edges (graph (missing_result (Call target.Nothing 0 [])))
        ≡ leaves_next 0 2 ∷ leaves_next 2 3 ∷ leaves_next 3 4 ∷ leaves_next 4 5 ∷ leaves_next 5 1 ∷ [] }
    ensures nested { edges (graph nested_calls)
        ≡ leaves_next 0 2 ∷ leaves_true 2 3 ∷ leaves_false 2 9 ∷ leaves_next 3 4 ∷ leaves_next 4 5 ∷ leaves_next 5 6
        ∷ leaves_next 6 7
        ∷ leaves_next 7 8 ∷ leaves_next 8 2 ∷ leaves_next 9 1 ∷ [] }
    ensures nested_chains { chains_of nested_calls ≡ [] ∷ [] ∷ [] ∷ [] ∷ (block 2 1 ∷ []) ∷ (block 2 1 ∷ block 1 0 ∷ [])
        ∷ (block 2 1 ∷ []) ∷ (block 2 1 ∷ []) ∷ [] ∷ [] ∷ [] }
    ensures nested_caps { caps_of nested_calls ≡ 1 ∷ 1 ∷ 5 ∷ 4 ∷ 4 ∷ 4 ∷ 4 ∷ 4 ∷ 4 ∷ 1 ∷ [] }
{}

/// The filter that clamps four samples: a call in a loop, its landing, and what is left of the loop's four turns. Four
/// turns are within its bound, and no fifth is allowed.
pub fn filter()
    ensures edges { edges (graph clamp_filter)
        ≡ leaves_next 0 2 ∷ leaves_next 2 3 ∷ leaves_next 3 4 ∷ leaves_true 4 6 ∷ leaves_false 4 17 ∷ leaves_next 5 4
        ∷ leaves_next 6 7 ∷ leaves_true 7 8
        ∷ leaves_false 7 9 ∷ leaves_next 8 12 ∷ leaves_true 9 10 ∷ leaves_false 9 11 ∷ leaves_next 10 12
        ∷ leaves_next 11 12 ∷ leaves_next 12 13 ∷ leaves_true 13 14
        ∷ leaves_false 13 15
        ∷ leaves_next 14 15 ∷ leaves_true 15 16 ∷ leaves_false 15 5 ∷ leaves_next 16 5 ∷ leaves_next 17 1 ∷ [] }
    ensures loops { loops (graph clamp_filter) ≡ loop 4 (2 ∷ []) 3 ∷ [] }
    ensures copies { loop_copies (graph clamp_filter) ≡ loop_copy 4 17 4 4 false ∷ [] }
    ensures landing { slice_get (calls_of clamp_filter) 12 ≡ Some (Some (block 1 4)) }
    ensures call { slice_get (blocks_of_func clamp_filter 1) 4
        ≡ Some (Calls (target.Assign (Local 2)) 0 (Elem (Global 0) (local 1) ∷ [])) }
    ensures condition { slice_get (blocks_of_func clamp_filter 0) 0 ≡ Some (Asks (Bin bin.Gt (local 0) (num 100))) }
    ensures returned { slice_get (blocks_of_func clamp_filter 0) 4 ≡ Some (Gives (Some (local 0))) }
    ensures caps { caps_of clamp_filter ≡ 1 ∷ 1 ∷ 1 ∷ 1 ∷ 5 ∷ 4 ∷ 4 ∷ 4 ∷ 4 ∷ 4 ∷ 4 ∷ 4 ∷ 4 ∷ 4 ∷ 4 ∷ 4 ∷ 4 ∷ 1 ∷ [] }
    ensures none_left { turns_left (loop 4 (2 ∷ []) 3) (0 ∷ 1 ∷ []) ≡ None }
    ensures all_left { turns_left (loop 4 (2 ∷ []) 3) to_the_loop ≡ Some 4 }
    ensures three_left { turns_left (loop 4 (2 ∷ []) 3) (to_the_loop ++ low_turn) ≡ Some 3 }
    ensures no_more { turns_left (loop 4 (2 ∷ []) 3) four_low_turns ≡ Some 0 }
    ensures fourth { each_allows (loops (graph clamp_filter)) three_low_turns 3 ≡ true }
    ensures fifth { each_allows (loops (graph clamp_filter)) four_low_turns 3 ≡ false }
    ensures leaves { each_allows (loops (graph clamp_filter)) four_low_turns 4 ≡ true }
    ensures enters_again { allows (loop 4 (2 ∷ []) 3) 2 (Some 0) ≡ true }
    ensures counted { edge_count four_low_turns 3 ≡ 4 }
{}

/// Which lists inputs drive. Of two choices, 11 takes the first and not the second; a path, its beginnings, a guard
/// that does not hold, and a list that is not contiguous. Of the filter, four low samples with mode 2, and a turn too
/// few.
pub fn driven_by_inputs()
    ensures path { drives two_thresholds (input (pos 11 ∷ [])) (0 ∷ 1 ∷ 2 ∷ 4 ∷ 6 ∷ 8 ∷ []) ≡ true }
    ensures none { drives two_thresholds (input (pos 11 ∷ [])) [] ≡ true }
    ensures begin { drives two_thresholds (input (pos 11 ∷ [])) (0 ∷ 1 ∷ 2 ∷ []) ≡ true }
    ensures guard { drives two_thresholds (input (pos 11 ∷ [])) (0 ∷ 1 ∷ 3 ∷ []) ≡ false }
    ensures not_contiguous { drives two_thresholds (input (pos 11 ∷ [])) (0 ∷ 2 ∷ []) ≡ false }
    ensures both { IsDrivenList two_thresholds (0 ∷ 1 ∷ 2 ∷ []) }
    ensures filter { drives clamp_filter (input (samples 200 2)) (four_low_turns ++ (4 ∷ 21 ∷ [])) ≡ true }
    ensures too_few { drives clamp_filter (input (samples 200 2)) (to_the_loop ++ (low_turn ++ (4 ∷ 21 ∷ []))) ≡ false }
    ensures other_mode { drives clamp_filter (input (samples 200 1)) (to_the_loop ++ low_turn) ≡ false }
{}
