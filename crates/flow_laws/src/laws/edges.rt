//! What edges join, and their numbers.

ghost use Rattle.std.specs.Prelude.{◌≡◌, ◌≢◌, ◌<◌, ◌≤◌, ◌+◌, ℕ, Bool, List, length, slice_get, Some};
ghost use Rattle.c_tree.specs.declared.program.Program.{Program};
ghost use Rattle.c_tree.specs.Keeping.WellFormed.{WellFormed};
ghost use Rattle.flow_laws.specs.declared.graph.Edge.{Edge};
ghost use Rattle.flow_laws.specs.declared.graph.Way.TheVariants.{True, False};
ghost use Rattle.flow_laws.specs.Sites.{Site};
ghost use Rattle.flow_laws.specs.Graphs.{graph, edges};
ghost use Rattle.flow_laws.specs.Paths.{IsEdgeFrom, times};
ghost use Rattle.flow_laws.specs.OpenEnds.{joined_edges};

/// No two edges leave one node by one way.
pub fn edges_are_distinct()
    ensures { (g : List Site) (j k : ℕ) (e d : Edge) → slice_get (edges g) j ≡ Some e → slice_get (edges g) k ≡ Some d
        → e.from ≡ d.from → e.way ≡ d.way → j ≡ k }
{}

/// Of two edges that leave one node, one is `True` and the other `False`, and `True` has the number before.
pub fn edges_beside_each_other()
    ensures { (g : List Site) (j k : ℕ) (e d : Edge) → slice_get (edges g) j ≡ Some e → slice_get (edges g) k ≡ Some d
        → e.from ≡ d.from → j < k → (e.way ≡ True) × (d.way ≡ False) × (k ≡ j + 1) }
{}

/// Each node but Exit is left by an edge, and Exit by none.
pub fn nodes_are_left()
    ensures by_an_edge { (p : Program) (n : ℕ) → n < length (graph p) → n ≢ 1
        → (j : ℕ) × IsEdgeFrom (edges (graph p)) n j }
    ensures exit { (p : Program) (j : ℕ) → IsEdgeFrom (edges (graph p)) 1 j → ⊥ }
{}

/// In the graph of a well-formed program each edge leaves a node and leads to a node other than Entry.
pub fn edges_join_nodes()
    ensures from { (p : Program) → WellFormed p → (j : ℕ) (e : Edge) → slice_get (edges (graph p)) j ≡ Some e
        → e.from < length (graph p) }
    ensures to { (p : Program) → WellFormed p → (j : ℕ) (e : Edge) → slice_get (edges (graph p)) j ≡ Some e
        → e.to < length (graph p) }
    ensures not_entry { (p : Program) → WellFormed p → (j : ℕ) (e : Edge) → slice_get (edges (graph p)) j ≡ Some e
        → 1 ≤ e.to }
{}

/// The edges of the graph of a well-formed program are its open ends joined to nodes: for each property, as many edges
/// have it.
pub fn edges_are_joined_ends()
    ensures { (p : Program) → WellFormed p → (has : Edge → Bool) → times has (joined_edges p)
        ≡ times has (edges (graph p)) }
{}
