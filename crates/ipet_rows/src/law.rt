//! Facts about the rows and what the caps allow, as the contracts of functions that do nothing.

ghost use Rattle.std.specs.Prelude.{◌≡◌, ◌≤◌, ◌^◌, ◌∷◌, [], ℕ, List, length};
ghost use Rattle.c_tree.specs.declared.program.Program.{Program};
ghost use Rattle.c_tree.specs.declared.program.Costs.{Costs};
ghost use Rattle.c_tree.specs.Keeping.WellFormed.{WellFormed};
ghost use Rattle.flow_laws.specs.Graphs.{graph, edges, loops};
ghost use Rattle.flow_laws.specs.Paths.{IsPath, KeepsEach};
ghost use Rattle.flow_laws.specs.Claims.{IsDriven};
ghost use Rattle.lin_rows.specs.declared.count_box.CountBox.{CountBox};
ghost use Rattle.c_tree.specs.Meaning.Worked.{two_thresholds, counted_while, counted_do, local, initialised_by_call};
ghost use Rattle.flow_laws.specs.WorkedGraphs.{empty_do};
ghost use Rattle.ipet_rows.specs.Worked.{plus_term, minus_term, equal, at_most, once_do};
ghost use Rattle.ipet_rows.specs.FlowRows.{flow_rows};
ghost use Rattle.ipet_rows.specs.Counts.{HoldOnPaths};
ghost use Rattle.ipet_rows.specs.Counted.{IsCounted};
ghost use Rattle.ipet_rows.specs.Optimum.{IpetOptimum};
ghost use Rattle.ipet_rows.specs.CapsBound.{caps_bound, caps_of_edges, AreSmall};

/// The counts of each driven path of a well-formed program meet every row of its graph.
pub fn path_counts_meet_rows()
    ensures { (p : Program) → WellFormed p → HoldOnPaths p (flow_rows (graph p)) }
{}

/// The counts of a path that keeps the bounds of all loops lie in the box from 0 to the caps, meet every row, and cost
/// what the path does, whether an input drives it or not.
pub fn kept_paths_are_counted()
    ensures { (p : Program) (t : Costs) (within : CountBox) (q : List ℕ) → WellFormed p
        → within.limits ≡ caps_of_edges (graph p) (edges (graph p)) → IsPath (edges (graph p)) q
        → KeepsEach (loops (graph p)) q
        → IsCounted p t within q }
{}

/// So do those of a driven path.
pub fn driven_paths_are_counted()
    ensures { (p : Program) (t : Costs) (within : CountBox) (q : List ℕ) → WellFormed p
        → within.limits ≡ caps_of_edges (graph p) (edges (graph p)) → IsDriven p q → IsCounted p t within q }
{}

/// At most one number is the optimum of a program.
pub fn one_optimum()
    ensures { (p : Program) (t : Costs) (m n : ℕ) → IpetOptimum p t m → IpetOptimum p t n → m ≡ n }
{}

/// Where each block costs less than 2^32, all edges at their caps cost at most 2^97: at most two edges leave a node,
/// and the caps of the block copies sum to the span, which is at most 2^64. So the sums of an optimum have room.
pub fn caps_leave_room()
    ensures { (p : Program) (t : Costs) → WellFormed p → AreSmall t → caps_bound t (graph p) ≤ 2 ^ 97 }
{}

/// Worked rows: of each kind of loop, of an edge from a node to itself, of a factor 0; and how many there are of two
/// choices and of a call in a loop.
pub fn worked_rows()
    ensures two_choices { length (flow_rows (graph two_thresholds)) ≡ 7 }
    ensures call { length (flow_rows (graph (initialised_by_call (local 0)))) ≡ 8 }
    ensures whiles { flow_rows (graph counted_while) ≡ equal (plus_term 0 1 ∷ []) 1
        ∷ equal (minus_term 0 1 ∷ plus_term 1 1 ∷ []) 0
        ∷ equal (minus_term 1 1 ∷ plus_term 2 1 ∷ plus_term 3 1 ∷ minus_term 4 1 ∷ []) 0
        ∷ equal (minus_term 2 1 ∷ plus_term 4 1 ∷ []) 0
        ∷ equal (minus_term 3 1 ∷ plus_term 5 1 ∷ []) 0 ∷ at_most (minus_term 1 10 ∷ plus_term 2 1 ∷ []) 0 ∷ [] }
    ensures dos { flow_rows (graph counted_do) ≡ equal (plus_term 0 1 ∷ []) 1 ∷ equal (minus_term 0 1 ∷ plus_term 1 1
        ∷ []) 0
        ∷ equal (minus_term 1 1 ∷ plus_term 2 1 ∷ minus_term 3 1 ∷ []) 0 ∷ equal (minus_term 2 1 ∷ plus_term 3 1
        ∷ plus_term 4 1 ∷ []) 0
        ∷ equal (minus_term 4 1 ∷ plus_term 5 1 ∷ []) 0 ∷ at_most (minus_term 1 2 ∷ plus_term 3 1 ∷ []) 0 ∷ [] }
    ensures itself { flow_rows (graph empty_do) ≡ equal (plus_term 0 1 ∷ []) 1 ∷ equal (minus_term 0 1 ∷ plus_term 2 1
        ∷ []) 0
        ∷ equal (minus_term 2 1 ∷ plus_term 3 1 ∷ []) 0 ∷ at_most (minus_term 0 2 ∷ plus_term 1 1 ∷ []) 0 ∷ [] }
    ensures once { flow_rows (graph once_do) ≡ equal (plus_term 0 1 ∷ []) 1 ∷ equal (minus_term 0 1 ∷ plus_term 2 1
        ∷ []) 0
        ∷ equal (minus_term 2 1 ∷ plus_term 3 1 ∷ []) 0 ∷ at_most (plus_term 1 1 ∷ []) 0 ∷ [] }
{}
