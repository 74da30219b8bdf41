//! What the answers say of paths, as the contracts of functions that do nothing.

ghost use Rattle.std.specs.Prelude.{◌≡◌, ℕ, List};
ghost use Rattle.c_tree.specs.declared.program.Program.{Program};
ghost use Rattle.path_walk.specs.declared.next.Next.{Next};
ghost use Rattle.path_walk.specs.Walks.{IsAnswer, IsWithin, BeginsAs};

/// Each path that begins with the prefix, keeps the loops' bounds and goes no further than the room begins with the
/// list of the answer, or with one of its two; where the answer is `Dead` there is no such path.
pub fn answers_cover_paths()
    ensures { (p : Program) (prefix room : List ℕ) (next : Next) → IsAnswer p prefix room next
        → (q : List ℕ) → IsWithin p prefix room q → BeginsAs next q }
{}

/// There is one answer at most.
pub fn answers_are_unique()
    ensures { (p : Program) (prefix room : List ℕ) (a b : Next) → IsAnswer p prefix room a → IsAnswer p prefix room b
        → a ≡ b }
{}
