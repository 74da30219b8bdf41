//! What evaluation and execution of a well-formed program keep, and that they ask for nothing that is not there.

ghost use Rattle.std.specs.Prelude.{◌≡◌, ℕ, Bool, IsTrue, List, [], length, drop, slice_get, Option, IsSome, IfSome};
ghost use Rattle.c_tree.specs.Keeping.Kept.{Keeps, AreValues, AreCalleesOf};
ghost use Rattle.c_tree.specs.Meaning.Statements.{Callee, exec};
ghost use Rattle.c_tree.specs.declared.tree.Ty.{Ty};
ghost use Rattle.c_tree.specs.declared.tree.UnOp.{UnOp};
ghost use Rattle.c_tree.specs.declared.tree.BinOp.{BinOp};
ghost use Rattle.c_tree.specs.declared.tree.Expr.{Expr};
ghost use Rattle.c_tree.specs.declared.tree.Stmt.{Stmt};
ghost use Rattle.c_tree.specs.declared.program.Program.{Program};
ghost use Rattle.c_tree.specs.declared.program.Input.{Input};
ghost use Rattle.c_tree.specs.declared.value.Value.{Value};
ghost use Rattle.c_tree.specs.declared.value.Store.{Store};
ghost use Rattle.c_tree.specs.Meaning.Values.{ty_of, is_value};
ghost use Rattle.c_tree.specs.Meaning.Operators.{unary, operation_value};
ghost use Rattle.c_tree.specs.Meaning.Expressions.{un_ty, bin_ty, type_of, val};
ghost use Rattle.c_tree.specs.Meaning.Runs.{callees, entry_types, fits, global_slots, arguments};
ghost use Rattle.c_tree.specs.Keeping.Layouts.{
  Layout,
  global_shapes,
  IsValueOf,
  IsSlotOf,
  EachSlot,
  HasLayout,
  HasReadLayout,
};
ghost use Rattle.c_tree.specs.Keeping.WellFormed.{Context, WellFormedExpr, WellFormedStmt, WellFormed};
ghost use Rattle.c_tree.specs.Keeping.Asked.{FindsExpr, FindsStmt};

/// An operator on operands in their ranges gives, if anything, a value of its type in its range. Each of two operands
/// may be undefined; of `&&` and `||` the right one counts only where the left one does not decide.
pub fn operators_give_values()
    ensures one { (op : UnOp) (a : Value) → IsTrue (is_value a) → IfSome (unary op a) (IsValueOf (un_ty op (ty_of a))) }
    ensures two { (op : BinOp) (t u : Ty) (a b : Option Value) → IfSome a (IsValueOf t) → IfSome b (IsValueOf u)
        → IfSome (operation_value op a b) (IsValueOf (bin_ty op t u)) }
{}

/// A well-formed expression, in a store of the layout, finds each variable that it names, of the right kind. Its value
/// is, if anything, of its type and in that type's range.
pub fn expressions_find_their_variables()
    ensures there { (l : Layout) (s : Store) → HasReadLayout l s → (e : Expr) → WellFormedExpr l e → FindsExpr s e }
    ensures value { (l : Layout) (s : Store) → HasReadLayout l s → (e : Expr) → WellFormedExpr l e
        → IfSome (val e s) (IsValueOf (type_of e s)) }
{}

/// A well-formed statement of a function, over callees that suit the functions above, keeps the layout of the store. It
/// ends in a `break` or a `continue` only in a loop, and returns a value exactly where the function has a result.
pub fn statements_keep_the_layout()
    ensures { (c : Context) (cs : List Callee) → AreCalleesOf c.layout.globals c.above cs → (f : ℕ)
        → (looped : Bool) (st : Stmt) (n : ℕ) (run : Bool) (s : Store)
        → WellFormedStmt c looped st → HasLayout c.layout s
        → Keeps c.layout c.result looped (exec cs f st n run s) }
{}

/// Such a statement finds the variables and the function that it asks for: each is there, and of the right kind.
pub fn statements_find_what_they_ask_for()
    ensures { (c : Context) (cs : List Callee) → AreCalleesOf c.layout.globals c.above cs
        → (looped : Bool) (st : Stmt) (s : Store)
        → WellFormedStmt c looped st → HasLayout c.layout s → FindsStmt cs s st }
{}

/// Each function of a well-formed program comes back from each call with globals of the program's layout, and with no
/// result or one of its type, in that type's range.
pub fn functions_keep_the_layout()
    ensures { (p : Program) → WellFormed p
        → AreCalleesOf (global_shapes p.globals) p.funcs (callees [] p.funcs) }
{}

/// The run of a well-formed program on a fitting input begins in the entry function, which is there, with as many
/// arguments as parameters and with globals of the program's layout, all in their ranges.
pub fn runs_begin_in_the_layout()
    ensures entry { (p : Program) → WellFormed p → IsSome (slice_get (callees [] p.funcs) p.entry) }
    ensures globals { (p : Program) (i : Input) → WellFormed p → IsTrue (fits p i)
        → EachSlot IsSlotOf (global_shapes p.globals)
        (global_slots p.globals (drop (length (entry_types (slice_get p.funcs p.entry))) i.values)) }
    ensures values { (p : Program) (i : Input) → WellFormed p → IsTrue (fits p i)
        → AreValues (arguments (entry_types (slice_get p.funcs p.entry)) i.values) }
    ensures count { (p : Program) (i : Input) → WellFormed p → IsTrue (fits p i)
        → IfSome (slice_get p.funcs p.entry)
        (λ f. length (arguments (entry_types (slice_get p.funcs p.entry)) i.values) ≡ f.params) }
{}
