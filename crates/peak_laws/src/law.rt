//! The optimum by recursion over a program's part, as the contracts of functions that do nothing.

ghost use Rattle.std.specs.Prelude.{ℕ, ◌≡◌, ◌≤◌, ◌^◌, ◌∷◌, [], pos, None};
ghost use Rattle.c_tree.specs.Meaning.Worked.{
  ones,
  two_thresholds,
  two_thresholds_costs,
  counted_while,
  counted_do,
  triangular_loops,
  triangular_loops_costs,
};
ghost use Rattle.flow_graph.specs.Worked.{nested_counts};
ghost use Rattle.ipet_rows.specs.Worked.{once_do};
ghost use Rattle.c_tree.specs.declared.program.Program.{Program};
ghost use Rattle.c_tree.specs.declared.program.Costs.{Costs};
ghost use Rattle.c_tree.specs.Meaning.Claims.{Above};
ghost use Rattle.c_tree.specs.Keeping.WellFormed.{WellFormed};
ghost use Rattle.flow_laws.specs.Graphs.{graph};
ghost use Rattle.lin_rows.specs.declared.count_box.CountBox.{CountBox};
ghost use Rattle.lin_rows.specs.declared.multipliers.Multipliers.{Multipliers};
ghost use Rattle.lin_rows.specs.declared.objective.Objective.{Objective};
ghost use Rattle.lin_rows.specs.declared.row.Rows.{Rows};
ghost use Rattle.flow_graph.specs.Limits.{size_fault};
ghost use Rattle.flow_graph.specs.Plans.{Planned};
ghost use Rattle.peak_laws.specs.declared.answer.Peak.{Peak};
ghost use Rattle.peak_laws.specs.Peaks.{IsComputed, IsPeakOf};
ghost use Rattle.lin_rows.specs.Steps.{StaysInI128};
ghost use Rattle.bound_cert.specs.Dual.{dual};
ghost use Rattle.bound_cert.specs.DualSteps.{dual_steps};
ghost use Rattle.ipet_rows.specs.CapsBound.{AreSmall};
ghost use Rattle.bound_cert.specs.Fitting.{FitsRows};
ghost use Rattle.ipet_rows.specs.Optimum.{MeetFlowRows, cost_of_counts, IpetOptimum};
ghost use Rattle.peak_laws.specs.Answers.{peak_value, peak_counts, IsPeakDual};
ghost use Rattle.peak_laws.specs.ProgramParts.{program_part};

/// The optimum of a well-formed program (Li and Malik: the greatest cost of whole counts that meet the rows of its
/// graph) is the cost of its part from its entry on, where each entry of a loop pays the loop's dearest full turns
/// ahead.
pub fn optimum_of_part()
    ensures { (p : Program) (t : Costs) → WellFormed p → IpetOptimum p t (peak_value (program_part p t)) }
{}

/// No run of a fitting input of a well-formed program costs more than the optimum (Li and Malik), since the counts of
/// its path meet the rows.
#[tactic(auto, using(crate::proofs::Optima::Above::runs_within))]
pub fn optimum_is_above()
    ensures { (p : Program) (t : Costs) (n : ℕ) → WellFormed p → IpetOptimum p t n → Above p t n }
{}

/// The counts of the part's dearest ways meet the rows and cost the optimum.
pub fn part_attains()
    ensures meet { (p : Program) (t : Costs) → WellFormed p → MeetFlowRows (graph p) (peak_counts (program_part p t)) }
    ensures cost { (p : Program) (t : Costs) → WellFormed p
        → cost_of_counts t (graph p) (peak_counts (program_part p t)) ≡ peak_value (program_part p t) }
{}

/// The multipliers of the part, which are the dearest costs to the end and the costs of dearest full turns, fit the
/// rows, and their dual value is the optimum, over every box whose least counts are 0. Where the graph is within the
/// limits and each block costs less than 2^32, each step of its computation stays in `i128`.
pub fn part_bounds()
    ensures fits { (p : Program) (t : Costs) (rows : Rows) (objective : Objective) (within : CountBox)
        (by : Multipliers)
        → WellFormed p → IsPeakDual p t rows objective within by → FitsRows rows by }
    ensures value { (p : Program) (t : Costs) (rows : Rows) (objective : Objective) (within : CountBox)
        (by : Multipliers)
        → WellFormed p → IsPeakDual p t rows objective within by → dual rows objective within by
        ≡ pos (peak_value (program_part p t)) }
    ensures room { (p : Program) (t : Costs) (rows : Rows) (objective : Objective) (within : CountBox)
        (by : Multipliers)
        → WellFormed p → AreSmall t → size_fault (graph p) ≡ None → IsPeakDual p t rows objective within by
        → StaysInI128 (dual_steps rows objective within by) }
{}

/// What is computed for a plan is its peak: all that is left to the code is the value, the counts and the multipliers
/// of the program's part. The costs of a plan are numbers of 32 bits, so the condition on them always holds there.
pub fn computed_is_peak()
    ensures { (plan : Planned) (peak : Peak) → WellFormed plan.program
        → AreSmall plan.costs → size_fault (graph plan.program) ≡ None
        → IsComputed plan peak → IsPeakOf plan peak }
{}

/// Worked optima: of two choices with their counts, of each kind of loop, of nested loops, and of a `do` that never
/// turns.
pub fn worked_peaks()
    ensures two_choices { peak_value (program_part two_thresholds two_thresholds_costs) ≡ 94 }
    ensures two_choices_counts { peak_counts (program_part two_thresholds two_thresholds_costs) ≡ 1 ∷ 1 ∷ 1 ∷ 0 ∷ 1 ∷ 1
        ∷ 0 ∷ 1 ∷ 1 ∷ [] }
    ensures whiles { peak_value (program_part counted_while ones) ≡ 23 }
    ensures while_counts { peak_counts (program_part counted_while ones) ≡ 1 ∷ 1 ∷ 10 ∷ 1 ∷ 10 ∷ 1 ∷ [] }
    ensures dos { peak_value (program_part counted_do ones) ≡ 8 }
    ensures triangular { peak_value (program_part triangular_loops triangular_loops_costs) ≡ 120 }
    ensures nested { peak_value (program_part (nested_counts 1048575) ones) ≡ 2199025352707 }
    ensures once { peak_value (program_part once_do ones) ≡ 2 }
{}
