//! How often a path takes each edge: what the rows of implicit path enumeration say (Li and Malik). Some of it holds of
//! every path, and some of every list that is contiguous.

ghost use Rattle.std.specs.Prelude.{[], ◌∷◌, ◌≡◌, ◌≤◌, ℕ, ◌+◌, ◌*◌, List, slice_get, Some, true};
ghost use Rattle.c_tree.specs.declared.program.Program.{Program};
ghost use Rattle.c_tree.specs.declared.program.Input.{Input};
ghost use Rattle.c_tree.specs.declared.program.Costs.{Costs};
ghost use Rattle.c_tree.specs.Meaning.Spans.{span_at, spans};
ghost use Rattle.c_tree.specs.Keeping.WellFormed.{WellFormed};
ghost use Rattle.flow_laws.specs.Sites.{Site};
ghost use Rattle.flow_laws.specs.declared.graph.Edge.{Edge};
ghost use Rattle.flow_laws.specs.declared.graph.Loop.{Loop};
ghost use Rattle.flow_laws.specs.Graphs.{graph, edges, loops};
ghost use Rattle.flow_laws.specs.Paths.{
  end_node,
  follows,
  IsPath,
  edge_count,
  total,
  leaving_count,
  arriving_count,
  cap_of,
  most_turns,
  KeepsEach,
};
ghost use Rattle.flow_laws.specs.Paths.{price, worth, copy_caps};
ghost use Rattle.flow_laws.specs.Claims.{DrivesPath};

/// A driven path takes each edge at most as often as the cap of the edge's source.
pub fn counts_are_within_caps()
    ensures { (p : Program) (i : Input) (q : List ℕ) → WellFormed p → DrivesPath p i q
        → (j : ℕ) (e : Edge) → slice_get (edges (graph p)) j ≡ Some e
        → edge_count q j ≤ cap_of (slice_get (graph p) e.from) }
{}

/// On a driven path, the count of a loop copy's `turn` is at most the loop's bound times the count of its `into`; of
/// `do` the bound less one.
pub fn turns_are_bounded()
    ensures { (p : Program) (i : Input) (q : List ℕ) → WellFormed p → DrivesPath p i q
        → (k : ℕ) (l : Loop) → slice_get (loops (graph p)) k ≡ Some l
        → edge_count q l.turn ≤ most_turns l * total q l.into }
{}

/// On a driven path, edge 0 is taken once, and from each node from 2 on as many edges leave as lead to it.
pub fn counts_are_conserved()
    ensures entry { (p : Program) (i : Input) (q : List ℕ) → WellFormed p → DrivesPath p i q → edge_count q 0 ≡ 1 }
    ensures nodes { (p : Program) (i : Input) (q : List ℕ) → WellFormed p → DrivesPath p i q
        → (n : ℕ) → 2 ≤ n → leaving_count (edges (graph p)) q n ≡ arriving_count (edges (graph p)) q n }
{}

/// A list that leads from a node to a node arrives at each node as often as it leaves it, but for its two ends; so a
/// closed one arrives at each as often as it leaves it.
pub fn lists_are_conserved()
    ensures ends { (es : List Edge) (n m : ℕ) (q : List ℕ) → end_node es n q ≡ Some m
        → (x : ℕ) → edge_count (n ∷ []) x + arriving_count es q x ≡ leaving_count es q x + edge_count (m ∷ []) x }
    ensures closed { (es : List Edge) (n : ℕ) (q : List ℕ) → end_node es n q ≡ Some n
        → (x : ℕ) → leaving_count es q x ≡ arriving_count es q x }
{}

/// A path, driven or not, takes edge 0 once, and as many of its edges leave a node from 2 on as lead to it.
pub fn paths_are_conserved()
    ensures entry { (p : Program) (q : List ℕ) → WellFormed p → IsPath (edges (graph p)) q → edge_count q 0 ≡ 1 }
    ensures nodes { (p : Program) (q : List ℕ) → IsPath (edges (graph p)) q
        → (n : ℕ) → 2 ≤ n → leaving_count (edges (graph p)) q n ≡ arriving_count (edges (graph p)) q n }
{}

/// On a list that is contiguous from Entry and keeps the bounds of all loops, driven or not, the count of a loop copy's
/// `turn` is at most the loop's bound times the count of its `into`; of `do` the bound less one. So it is on a path.
pub fn kept_turns_are_bounded()
    ensures lists { (p : Program) (q : List ℕ) → follows (edges (graph p)) q ≡ true → KeepsEach (loops (graph p)) q
        → (k : ℕ) (l : Loop) → slice_get (loops (graph p)) k ≡ Some l
        → edge_count q l.turn ≤ most_turns l * total q l.into }
    ensures paths { (p : Program) (q : List ℕ) → IsPath (edges (graph p)) q → KeepsEach (loops (graph p)) q
        → (k : ℕ) (l : Loop) → slice_get (loops (graph p)) k ≡ Some l
        → edge_count q l.turn ≤ most_turns l * total q l.into }
{}

/// A list that is contiguous from Entry and keeps the bounds of all loops, driven or not, takes each edge at most as
/// often as the cap of the edge's source. So does a path.
pub fn kept_counts_are_within_caps()
    ensures lists { (p : Program) (q : List ℕ) → WellFormed p
        → follows (edges (graph p)) q ≡ true → KeepsEach (loops (graph p)) q
        → (j : ℕ) (e : Edge) → slice_get (edges (graph p)) j ≡ Some e
        → edge_count q j ≤ cap_of (slice_get (graph p) e.from) }
    ensures paths { (p : Program) (q : List ℕ) → WellFormed p
        → IsPath (edges (graph p)) q → KeepsEach (loops (graph p)) q
        → (j : ℕ) (e : Edge) → slice_get (edges (graph p)) j ≡ Some e
        → edge_count q j ≤ cap_of (slice_get (graph p) e.from) }
{}

/// The price of a list is the sum of the edges' costs times their counts.
pub fn prices_are_sums_over_counts()
    ensures { (t : Costs) (g : List Site) (q : List ℕ) → price t g q ≡ worth t g q }
{}

/// The caps of the block copies sum to the span of the entry function.
pub fn caps_sum_to_the_span()
    ensures { (p : Program) → copy_caps (graph p) ≡ span_at (spans [] p.funcs) p.entry }
{}
