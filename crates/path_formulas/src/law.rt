//! What the formulas of a list say, as contracts of functions that do nothing.

ghost use Rattle.std.specs.Prelude.{◌≡◌, ℕ, List, true};
ghost use Rattle.c_tree.specs.declared.program.Program.{Program};
ghost use Rattle.c_tree.specs.Keeping.WellFormed.{WellFormed};
ghost use Rattle.flow_laws.specs.Graphs.{graph, edges};
ghost use Rattle.flow_laws.specs.Paths.{follows};
ghost use Rattle.cnf_form.specs.declared.cnf.Cnf.{Cnf};
ghost use Rattle.bv_term.specs.Stores.{Terms};
ghost use Rattle.path_formulas.specs.FormulasOfLists.{
  IsFormulaOfList,
  IsFormulaOfTerms,
  AreTermsForList,
  SaysWhatDrives,
};

/// For a well-formed program and a list of edges that is contiguous from Entry: each satisfying assignment of the
/// formula of the list says an input that fits the program and drives the list, and each such input is said by one.
pub fn formulas_say_what_drives()
    ensures { (p : Program) (q : List ℕ) (formula : Cnf) → WellFormed p → follows (edges (graph p)) q ≡ true
        → IsFormulaOfList p q formula → SaysWhatDrives p q formula }
{}

/// The same for other terms over the inputs of the list, whose conditions are nonzero exactly where an input drives it:
/// each satisfying assignment of their formula says an input that fits the program and drives the list, and each such
/// input is said by one.
pub fn formulas_of_other_terms_say_what_drives()
    ensures { (p : Program) (q : List ℕ) (terms : Terms) (conditions : List ℕ) (formula : Cnf)
        → AreTermsForList p q terms conditions → IsFormulaOfTerms terms conditions formula
        → SaysWhatDrives p q formula }
{}
