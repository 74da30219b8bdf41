//! The laws of accepted and of worked logs.

ghost use Rattle.std.specs.Prelude.{◌<◌, ◌^◌, ℕ, ℤ, List, All, Contains, map};
ghost use Rattle.cnf_form.specs.Literals.{AreClauses};
ghost use Rattle.cnf_form.specs.Truth.{HasNoSolution};
ghost use Rattle.cnf_form.specs.declared.cnf.Cnf.{Cnf};
ghost use Rattle.cnf_form.specs.declared.log.Log.{Log};
ghost use Rattle.rup_check.specs.Accepted.{IsAccepted};
ghost use Rattle.rup_check.specs.Closed.{IsClosed, Teaches};
ghost use Rattle.rup_check.specs.Worked.{IsWorked};

/// An accepted log means that no assignment satisfies its formula, whoever made the log.
pub fn accepted_has_no_solution()
    ensures { (cnf : Cnf) (log : Log) → IsAccepted cnf log → HasNoSolution cnf.clauses }
{}

/// A clause that teaches over some clauses contains none of them: so a line of a worked log contains no clause of the
/// formula and no earlier line.
pub fn teaching_is_new()
    ensures { (clauses : List (List ℤ)) (known literals : List ℤ) → Contains clauses known → All (Contains literals)
        known → ¬ Teaches clauses literals }
{}

/// A worked log of n lines is shorter than 3^v, v the number of variables of its formula: its lines are different
/// clauses, none of them empty.
pub fn worked_is_short()
    ensures { (cnf : Cnf) (log : Log) (n : ℕ) → AreClauses (map (λ line. line.clause) log.lines) → IsWorked cnf log n
        → n < 3 ^ cnf.variables }
{}

/// A worked log that has a line needs a list of literals that is closed under unit propagation over its formula: where
/// unit propagation alone refutes the formula, there is none.
pub fn worked_needs_closed()
    ensures { (cnf : Cnf) (log : Log) (n : ℕ) → 0 < n → IsWorked cnf log n → (made : List ℤ)
        × IsClosed cnf.clauses made }
{}
