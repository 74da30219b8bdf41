//! Programs that are well-formed, and statements that are not.

ghost use Rattle.std.specs.Prelude.{◌≡◌, ℕ, Bool, false, List, None, slice_get};
ghost use Rattle.c_tree.specs.declared.tree.Expr.{Expr};
ghost use Rattle.c_tree.specs.declared.tree.Target.{Target};
ghost use Rattle.c_tree.specs.declared.tree.Stmt.{Stmt};
ghost use Rattle.c_tree.specs.declared.tree.Stmt.TheVariants.{Break, Continue, Call, Do};
ghost use Rattle.c_tree.specs.Keeping.WellFormed.{Context, WellFormed, WellFormedStmt};
ghost use Rattle.c_tree.specs.Meaning.Worked.{counted_while, triangular_loops, clamp_filter};

/// Worked programs are well-formed.
pub fn well_formed_programs()
    ensures counted { WellFormed counted_while }
    ensures triangle { WellFormed triangular_loops }
    ensures filter { WellFormed clamp_filter }
{}

/// No `break` or `continue` stands outside a loop, no `do` has the bound 0, and no function calls itself or one below.
pub fn ill_formed_statements()
    ensures stray_break { (c : Context) → ¬ WellFormedStmt c false Break }
    ensures stray_continue { (c : Context) → ¬ WellFormedStmt c false Continue }
    ensures bound_of_zero { (c : Context) (looped : Bool) (xs : List Stmt) (e : Expr) → ¬ WellFormedStmt c looped
        (Do 0 xs e) }
    ensures no_callee { (c : Context) (looped : Bool) (t : Target) (g : ℕ) (es : List Expr)
        → slice_get c.above g ≡ None → ¬ WellFormedStmt c looped (Call t g es) }
{}
