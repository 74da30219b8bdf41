//! Lists of edges, apart from any memory: where they lead, how they go on, and which bounds they keep.

ghost use Rattle.std.specs.Prelude.{◌≡◌, ◌↔◌, ◌+◌, ◌&&◌, ℕ, [], ◌∷◌, ◌++◌, true, false, List, slice_get, Some};
ghost use Rattle.std.specs.Prelude.{option_and_then};
ghost use Rattle.c_tree.specs.declared.program.Program.{Program};
ghost use Rattle.c_tree.specs.declared.program.Costs.{Costs};
ghost use Rattle.c_tree.specs.Keeping.WellFormed.{WellFormed};
ghost use Rattle.flow_laws.specs.declared.graph.Edge.{Edge};
ghost use Rattle.flow_laws.specs.declared.graph.Loop.{Loop};
ghost use Rattle.flow_laws.specs.Sites.{Site};
ghost use Rattle.flow_laws.specs.Graphs.{graph, edges};
ghost use Rattle.flow_laws.specs.Paths.{end_node, follows, IsEdgeFrom, IsPath, edge_count, price};
ghost use Rattle.flow_laws.specs.Paths.{keeps, keeps_each, turns_left, turns_left_on, allows, each_allows};

/// Where two lists, one after the other, lead, what they count and what they cost; and a list that is contiguous from
/// Entry begins with lists that are.
pub fn lists_join()
    ensures leads { (es : List Edge) (n : ℕ) (a b : List ℕ) → end_node es n (a ++ b)
        ≡ option_and_then (λ m. end_node es m b) (end_node es n a) }
    ensures begins { (es : List Edge) (a b : List ℕ) → follows es (a ++ b) ≡ true → follows es a ≡ true }
    ensures counts { (a b : List ℕ) (j : ℕ) → edge_count (a ++ b) j ≡ edge_count a j + edge_count b j }
    ensures costs { (t : Costs) (g : List Site) (a b : List ℕ) → price t g (a ++ b) ≡ price t g a + price t g b }
{}

/// A list that leads from Entry to a node goes on exactly by an edge that leaves the node, and then leads where that
/// edge does. A path goes on by no edge.
pub fn lists_go_on()
    ensures by_an_edge { (es : List Edge) (q : List ℕ) (n j : ℕ) → end_node es 0 q ≡ Some n
        → (follows es (q ++ j ∷ []) ≡ true) ↔ IsEdgeFrom es n j }
    ensures leads { (es : List Edge) (q : List ℕ) (n j : ℕ) (e : Edge) → end_node es 0 q ≡ Some n
        → slice_get es j ≡ Some e → e.from ≡ n
        → end_node es 0 (q ++ j ∷ []) ≡ Some e.to }
    ensures path_ends { (p : Program) (q : List ℕ) (j : ℕ) → IsPath (edges (graph p)) q
        → follows (edges (graph p)) (q ++ j ∷ []) ≡ false }
{}

/// A list with one edge more keeps a loop's bound exactly where the list does and the turns that are left allow the
/// edge; and so for several loops, which allow it exactly where each of them does. What keeps their bounds begins with
/// lists that do.
pub fn bounds_go_on()
    ensures left { (l : Loop) (q : List ℕ) (j : ℕ) → turns_left l (q ++ j ∷ []) ≡ turns_left_on l j (turns_left l q) }
    ensures one { (l : Loop) (q : List ℕ) (j : ℕ) → keeps l (q ++ j ∷ []) ≡ (keeps l q && allows l j (turns_left l q)) }
    ensures each { (ls : List Loop) (q : List ℕ) (j : ℕ) → keeps_each ls (q ++ j ∷ [])
        ≡ (keeps_each ls q && each_allows ls q j) }
    ensures by_number { (ls : List Loop) (q : List ℕ) (j : ℕ) → (each_allows ls q j ≡ true)
        ↔ ((k : ℕ) (l : Loop) → slice_get ls k ≡ Some l → allows l j (turns_left l q) ≡ true) }
    ensures begin { (ls : List Loop) (a b : List ℕ) → keeps_each ls (a ++ b) ≡ true → keeps_each ls a ≡ true }
{}
