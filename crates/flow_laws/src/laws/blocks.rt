//! What a node does is found by the name of its block.

ghost use Rattle.std.specs.Prelude.{◌≡◌, ◌<◌, ℕ, length, slice_get, Some, None};
ghost use Rattle.c_tree.specs.declared.program.Program.{Program};
ghost use Rattle.c_tree.specs.Meaning.Statements.{block};
ghost use Rattle.flow_laws.specs.Sites.{Site, call_of};
ghost use Rattle.flow_laws.specs.Graphs.{graph};
ghost use Rattle.flow_laws.specs.BlockLists.{Block, blocks_of_func, plain, block_content, bare_content};

/// The block that a node is a copy of stands in its function at the block's number, and the node does what it says.
/// What any other node does is told by its number, and of a landing by the block of its call.
pub fn blocks_are_found()
    ensures copies { (p : Program) (n : ℕ) (s : Site) (k m : ℕ) → slice_get (graph p) n ≡ Some s
        → s.node.block ≡ Some (block k m)
        → (x : Block) × (slice_get (blocks_of_func p k) m ≡ Some x) × (plain s.content ≡ block_content p k (Some x)) }
    ensures others { (p : Program) (n : ℕ) (s : Site) → p.entry < length p.funcs → slice_get (graph p) n ≡ Some s
        → s.node.block ≡ None → s.content ≡ bare_content p n (call_of s.content) }
{}
