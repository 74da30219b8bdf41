//! Facts about the definitions, as the contracts of functions that do nothing.

ghost use Rattle.std.specs.Prelude.{◌≡◌, ℕ, List, [], ◌∷◌, true};
ghost use Rattle.c_tree.specs.declared.program.Program.{Program};
ghost use Rattle.c_tree.specs.declared.program.Input.{Input};
ghost use Rattle.c_tree.specs.Meaning.Runs.{fits};
ghost use Rattle.c_tree.specs.Keeping.WellFormed.{WellFormed};
ghost use Rattle.flow_laws.specs.Graphs.{graph, edges};
ghost use Rattle.flow_laws.specs.Paths.{follows};
ghost use Rattle.bv_term.specs.Stores.{fits_store};
ghost use Rattle.cond_laws.specs.TermPaths.{TermsOf};
ghost use Rattle.c_tree.specs.Meaning.Worked.{two_thresholds};
ghost use Rattle.bv_term.specs.declared.op.Op.TheVariants as op;
ghost use Rattle.cond_laws.specs.Weights.{weight};
ghost use Rattle.cond_laws.specs.Conditions.{Cond, FitTerms};

/// For a well-formed program and a list of edges that is contiguous from Entry: at each fitting input, the terms of
/// the list are all nonzero exactly where the input drives it.
pub fn terms_say_what_drives()
    ensures { (p : Program) (q : List ℕ) → WellFormed p → follows (edges (graph p)) q ≡ true
        → Cond p q (TermsOf p q).terms (TermsOf p q).conditions }
{}

/// Each operator of the terms of a list names terms before it and inputs of the program, and each condition is a term.
pub fn terms_fit()
    ensures { (p : Program) (q : List ℕ) → WellFormed p → FitTerms (TermsOf p q) }
{}

/// An input fits the store of the terms of a list exactly where it fits the program.
pub fn same_inputs_fit()
    ensures { (p : Program) (q : List ℕ) (i : Input) → fits_store (TermsOf p q).terms i ≡ fits p i }
{}

/// Two choices: the terms of the list up to the first `True`, and the weight of the path above both thresholds.
pub fn two_choices()
    ensures terms { TermsOf two_thresholds (0 ∷ 1 ∷ 2 ∷ [])
        ≡ record {
          terms = record {
            inputs = true ∷ [];
            ops = op.Input 0 ∷ op.Const 0 ∷ op.Const 10 ∷ op.LtS 2 0
                ∷ [];
          };
          conditions = 3 ∷ [];
        } }
    ensures weight { weight two_thresholds (0 ∷ 1 ∷ 2 ∷ 4 ∷ 6 ∷ 8 ∷ []) ≡ 167 }
{}
