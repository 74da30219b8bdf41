//! Runs are driven paths, and an input drives one path at most.

ghost use Rattle.std.specs.Prelude.{◌≡◌, ◌⊎◌, ◌↔◌, ◌&&◌, ℕ, List, [], ◌∷◌, ◌++◌, Some, true, slice_get, is_some};
ghost use Rattle.std.specs.Prelude.{option_and_then};
ghost use Rattle.c_tree.specs.declared.program.Program.{Program};
ghost use Rattle.c_tree.specs.declared.program.Input.{Input};
ghost use Rattle.c_tree.specs.declared.program.Costs.{Costs};
ghost use Rattle.c_tree.specs.Keeping.WellFormed.{WellFormed};
ghost use Rattle.flow_laws.specs.declared.graph.Loop.{Loop};
ghost use Rattle.flow_laws.specs.Graphs.{graph, edges, loops};
ghost use Rattle.flow_laws.specs.Paths.{follows, IsPath, Keeps, KeepsEach, keeps, keeps_each, each_allows};
ghost use Rattle.flow_laws.specs.Driving.{Drives, drives, place_at, reached_place, place_after};
ghost use Rattle.flow_laws.specs.Claims.{EndsAt, DrivesAt, IsDriven, IsDrivenList, Begins};

/// For each input and each number n, fitting or not, the run of a well-formed program ends and costs n exactly where
/// the input drives a path of price n.
pub fn runs_are_driven_paths()
    ensures to_path { (p : Program) (t : Costs) (i : Input) (n : ℕ) → WellFormed p → EndsAt p t i n → DrivesAt p t i n }
    ensures to_run { (p : Program) (t : Costs) (i : Input) (n : ℕ) → WellFormed p → DrivesAt p t i n → EndsAt p t i n }
{}

/// Of two lists of edges that an input drives, one begins with the other. So it drives one path at most.
pub fn driving_is_determined()
    ensures { (p : Program) (i : Input) (a b : List ℕ) → Drives p i a → Drives p i b → Begins a b ⊎ Begins b a }
{}

/// What an input drives follows the edges from Entry, and with a list it drives each list with which that begins. A
/// driven path is a driven list that leads from Entry into Exit.
pub fn driven_lists()
    ensures follow { (p : Program) (i : Input) (q : List ℕ) → Drives p i q → follows (edges (graph p)) q ≡ true }
    ensures begin { (p : Program) (i : Input) (a b : List ℕ) → Drives p i (a ++ b) → Drives p i a }
    ensures some_begin { (p : Program) (a b : List ℕ) → IsDrivenList p (a ++ b) → IsDrivenList p a }
    ensures paths { (p : Program) (q : List ℕ) → IsDriven p q ↔ (IsDrivenList p q × IsPath (edges (graph p)) q) }
{}

/// Driving is computed: node by node, by what each does with the memory, and by a counter of the turns that are left
/// for each loop. An input that drives a list drives it with one edge more where it leads on over the edge, and the
/// bounds allow it.
pub fn driving_is_computed()
    ensures same { (p : Program) (i : Input) (q : List ℕ) → Drives p i q ↔ (drives p i q ≡ true) }
    ensures ends { (p : Program) (i : Input) (q : List ℕ) (h : Drives p i q) → reached_place p i q
        ≡ Some (place_at h.node h.memory) }
    ensures leads_on { (p : Program) (i : Input) (q : List ℕ) (j : ℕ)
        → reached_place p i (q ++ j ∷ [])
        ≡ option_and_then (place_after (graph p) (slice_get (edges (graph p)) j)) (reached_place p i q) }
    ensures goes_on { (p : Program) (i : Input) (q : List ℕ) (j : ℕ) → drives p i (q ++ j ∷ [])
        ≡ (drives p i q && (is_some (reached_place p i (q ++ j ∷ [])) && each_allows (loops (graph p)) q j)) }
{}

/// A list keeps a loop's bound exactly where the counter of the turns that are left says so; and so for several loops.
pub fn bounds_are_counters()
    ensures one { (l : Loop) (q : List ℕ) → Keeps l q ↔ (keeps l q ≡ true) }
    ensures each { (ls : List Loop) (q : List ℕ) → KeepsEach ls q ↔ (keeps_each ls q ≡ true) }
{}
