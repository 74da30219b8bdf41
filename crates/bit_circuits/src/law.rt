//! The laws of the clauses of conditions. These functions do nothing: their contracts are facts about the definitions.

ghost use Rattle.std.specs.Prelude.{◌≤◌, ℕ, List, length};
ghost use Rattle.cnf_form.specs.Literals.{most};
ghost use Rattle.cnf_form.specs.Forms.{IsFormula};
ghost use Rattle.bv_term.specs.Stores.{Terms, AreTerms};
ghost use Rattle.bit_circuits.specs.Formula.{IsFormulaOf, VariablesOf, ClausesOf};

/// At an input that fits the store, all conditions are nonzero exactly where some satisfying assignment of their
/// clauses decodes to it, and every satisfying assignment decodes to an input that fits.
pub fn clauses_say_conditions()
    ensures { (terms : Terms) (conditions : List ℕ) → AreTerms terms → IsFormulaOf terms conditions (VariablesOf terms)
        (ClausesOf terms conditions) }
{}

/// The clauses of conditions are those of a formula, unless there are too many variables or clauses.
pub fn clauses_are_formula()
    ensures { (terms : Terms) (conditions : List ℕ) → AreTerms terms → VariablesOf terms ≤ most
        → length (ClausesOf terms conditions) ≤ most → IsFormula (VariablesOf terms) (ClausesOf terms conditions) }
{}
