//! Worked stores after simple statements, numbers of blocks, and traces.

ghost use Rattle.std.specs.Prelude.{◌≡◌, Some, None, [], ◌∷◌, true, false};
ghost use Rattle.c_tree.specs.declared.tree.Ty.TheVariants as ty;
ghost use Rattle.c_tree.specs.declared.tree.UnOp.TheVariants as un;
ghost use Rattle.c_tree.specs.declared.tree.BinOp.TheVariants as bin;
ghost use Rattle.c_tree.specs.declared.tree.Var.TheVariants.{Local};
ghost use Rattle.c_tree.specs.declared.tree.Expr.TheVariants.{Num, Elem, Un, Bin};
ghost use Rattle.c_tree.specs.declared.tree.Place.TheVariants as place;
ghost use Rattle.c_tree.specs.declared.tree.Target.TheVariants as target;
ghost use Rattle.c_tree.specs.declared.tree.Stmt.TheVariants.{Empty, Scalar, Array, Assign, Call};
ghost use Rattle.c_tree.specs.declared.tree.Stmt.TheVariants.{Break, Continue, If, While, Do, For, Group};
ghost use Rattle.c_tree.specs.declared.value.Value.TheVariants.{Unsigned};
ghost use Rattle.c_tree.specs.declared.value.Slot.TheVariants.{Unset, Number, Numbers};
ghost use Rattle.c_tree.specs.declared.value.Way.TheVariants as way;
ghost use Rattle.c_tree.specs.Meaning.Literals.{plus, minus};
ghost use Rattle.c_tree.specs.Meaning.Blocks.{list_blocks};
ghost use Rattle.c_tree.specs.Meaning.Statements.{simple, Ends, Undefined, OverBound};
ghost use Rattle.c_tree.specs.Meaning.Worked.{
  num,
  local,
  declares,
  sets,
  increment,
  store,
  unset,
  holds,
  lists,
  effect,
  own_block,
};

/// Declarations (C11 6.2.4, 6.7.9): a local is unset before its initialiser is evaluated, each time it is reached.
pub fn declarations()
    ensures no_initialiser { simple (Scalar 0 None) (holds (plus 31)) ≡ Some unset }
    ensures own_initialiser { simple (declares 0 (local 0)) (holds (plus 31)) ≡ None }
    ensures own_list { simple (Array 0 (Elem (Local 0) (num 0) ∷ [])) (lists ty.Int (plus 31 ∷ [])) ≡ None }

    // the initialiser is converted; a list that is too short is filled with 0
    ensures converted { simple (Scalar 0 (Some (Num ty.Unsigned 4294967295))) unset ≡ Some (holds (minus 1)) }
    ensures filled { simple (Array 0 (num 31 ∷ [])) (lists ty.Unsigned (Unsigned 1 ∷ Unsigned 2 ∷ Unsigned 3 ∷ []))
        ≡ Some (lists ty.Unsigned (Unsigned 31 ∷ Unsigned 0 ∷ Unsigned 0 ∷ [])) }
{}

/// Assignments (C11 6.5.16): converted to the place's type, and `x op= e` is `x = x op e`.
pub fn assignments()
    ensures converted { simple (sets 0 None (Num ty.Unsigned 2147483648)) unset ≡ Some (holds (minus 2147483648)) }
    ensures compound { simple (sets 0 (Some bin.Sub) (num 32)) (holds (Unsigned 31))
        ≡ Some (holds (Unsigned 4294967295)) }
    ensures compound_unset { simple (sets 0 (Some bin.Add) (num 1)) unset ≡ None }
    ensures overflow { simple (increment 0) (holds (plus 2147483647)) ≡ None }
    ensures element { simple (Assign (place.Elem (Local 0) (num 1)) (Some bin.Mul) (num 31))
        (lists ty.Int (plus 1 ∷ plus 2 ∷ []))
        ≡ Some (lists ty.Int (plus 1 ∷ plus 62 ∷ [])) }

    // undefined outside the array, and where the index or the expression is undefined
    ensures outside { simple (Assign (place.Elem (Local 0) (num 2)) None (num 31)) (lists ty.Int (plus 1 ∷ plus 2 ∷ []))
        ≡ None }
    ensures below { simple (Assign (place.Elem (Local 0) (Un un.Minus (num 1))) None (num 31))
        (lists ty.Int (plus 1 ∷ []))
        ≡ None }
    ensures undefined_index { simple (Assign (place.Elem (Local 0) (local 1)) None (num 31))
        (store (Numbers ty.Int (plus 1 ∷ []) ∷ Unset ty.Int ∷ []))
        ≡ None }
    ensures undefined_value { simple (sets 0 None (Bin bin.Div (num 1) (num 0))) unset ≡ None }
    ensures nothing { simple Empty unset ≡ Some unset }
{}

/// Numbers of blocks (this project's own).
pub fn block_counts()
    // a maximal run of simple statements in one list is one; a list inside is another list, and ends the run
    ensures run { list_blocks (Empty ∷ declares 0 (num 1) ∷ increment 0 ∷ []) false ≡ 1 }
    ensures group { list_blocks (increment 0 ∷ Group (increment 0 ∷ []) ∷ increment 0 ∷ []) false ≡ 3 }

    // a call is one, a declaration that it initialises among them
    ensures call { list_blocks (increment 0 ∷ Call (target.Declare 1) 0 [] ∷ increment 0 ∷ []) false ≡ 3 }
    ensures jumps { list_blocks (Break ∷ Continue ∷ []) false ≡ 2 }

    // a condition is one, also of a `for` without one; an initialiser and a step are one each
    ensures choice { list_blocks (If (num 1) (increment 0 ∷ []) [] ∷ []) false ≡ 2 }
    ensures full_for { list_blocks (For 1 (Some (declares 0 (num 0))) (num 1) (Some (increment 0)) (Empty ∷ []) ∷ [])
        false
        ≡ 4 }
    ensures bare_for { list_blocks (For 1 None (num 1) None [] ∷ []) false ≡ 1 }
    ensures do_loop { list_blocks (Do 1 (increment 0 ∷ []) (num 0) ∷ []) false ≡ 2 }
{}

/// Traces: blocks are numbered by the place of their first token, and entered each time control comes to them.
pub fn traces()
    // `x++; ; if (0) x++; else x++;`
    ensures else_list { effect (increment 0 ∷ Empty ∷ If (num 0) (increment 0 ∷ []) (increment 0 ∷ []) ∷ [])
        (holds (plus 0))
        ≡ Ends (own_block 0 ∷ own_block 1 ∷ own_block 3 ∷ []) (holds (plus 2)) way.Next }

    // initialiser, condition, step, body: a `continue` goes to the step; `for [1] (x = 0; x < 1; x++) continue;`
    ensures for_continue { effect (For 1 (Some (sets 0 None (num 0))) (Bin bin.Lt (local 0) (num 1))
        (Some (increment 0)) (Continue ∷ []) ∷ []) unset
        ≡ Ends (own_block 0 ∷ own_block 1 ∷ own_block 3 ∷ own_block 2 ∷ own_block 1 ∷ []) (holds (plus 1)) way.Next }

    // a `break` leaves the loop, here on the turn that the bound still allows; `while [1] (1) break;`
    ensures while_break { effect (While 1 (num 1) (Break ∷ []) ∷ []) (store [])
        ≡ Ends (own_block 0 ∷ own_block 1 ∷ []) (store []) way.Next }

    // the body of a `do` stands before its condition, to which a `continue` goes; `do [1] continue; while (0);`
    ensures do_continue { effect (Do 1 (Continue ∷ []) (num 0) ∷ []) (store [])
        ≡ Ends (own_block 0 ∷ own_block 1 ∷ []) (store []) way.Next }

    // what comes first decides: `while [1] (1) x = 1 / 0;` and `while [1] (1) ;`
    ensures undefined_first { effect (While 1 (num 1) (sets 0 None (Bin bin.Div (num 1) (num 0)) ∷ []) ∷ []) unset
        ≡ Undefined }
    ensures bound_first { effect (While 1 (num 1) (Empty ∷ []) ∷ sets 0 None (Bin bin.Div (num 1) (num 0)) ∷ []) unset
        ≡ OverBound }
{}
