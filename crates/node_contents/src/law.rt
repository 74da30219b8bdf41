//! Facts about what nodes do, as the contracts of functions that do nothing.

ghost use Rattle.std.specs.Prelude.{◌≡◌, [], ◌∷◌, None, Some};
ghost use Rattle.c_tree.specs.declared.tree.BinOp.TheVariants as bin;
ghost use Rattle.c_tree.specs.declared.tree.Expr.TheVariants.{Bin};
ghost use Rattle.c_tree.specs.Meaning.Worked.{two_thresholds, declares, sets, num, local};
ghost use Rattle.flow_laws.specs.Sites.{Content, Entry, Exit, Simple, Test, Give};
ghost use Rattle.flow_laws.specs.Graphs.{graph};
ghost use Rattle.flow_laws.specs.BlockLists.{plain};
ghost use Rattle.node_contents.specs.Contents.{contents};
ghost use Rattle.flow_laws.specs.Driving.{Memory, content_move};

/// What a node does to a memory does not depend on the loop of its condition.
pub fn acting_needs_no_loop()
    ensures { (c : Content) (m : Memory) → content_move (plain c) m ≡ content_move c m }
{}

/// Two choices: what each node does.
pub fn worked_contents()
    ensures { contents (graph two_thresholds) ≡ Entry ∷ Exit ∷ Simple (declares 1 (num 0) ∷ [])
        ∷ Test None (Bin bin.Gt (local 0) (num 10)) ∷ Simple (sets 1 None (num 1) ∷ [])
        ∷ Test None (Bin bin.Lt (local 0) (num 5)) ∷ Simple (sets 1 None (num 2) ∷ []) ∷ Give (Some (local 1)) ∷ [] }
{}
