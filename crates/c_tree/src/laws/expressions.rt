//! Worked types and values of expressions. `num n` is the number n of `int`, `local n` the local n by name, and
//! None says undefined.

ghost use Rattle.std.specs.Prelude.{◌≡◌, Some, None, [], ◌∷◌};
ghost use Rattle.c_tree.specs.declared.tree.Ty.TheVariants as ty;
ghost use Rattle.c_tree.specs.declared.tree.UnOp.TheVariants as un;
ghost use Rattle.c_tree.specs.declared.tree.BinOp.TheVariants as bin;
ghost use Rattle.c_tree.specs.declared.tree.Var.TheVariants.{Local};
ghost use Rattle.c_tree.specs.declared.tree.Expr.TheVariants.{Num, Elem, Un, Cast, Bin, Cond};
ghost use Rattle.c_tree.specs.declared.value.Value.TheVariants.{Unsigned};
ghost use Rattle.c_tree.specs.declared.value.Slot.TheVariants.{Unset, Number, Numbers};
ghost use Rattle.c_tree.specs.Meaning.Literals.{plus, minus};
ghost use Rattle.c_tree.specs.Meaning.Expressions.{type_of, val};
ghost use Rattle.c_tree.specs.Meaning.Worked.{num, local, store, unset, holds, lists};

/// A name and an element have what the store has; an unset name and an element outside the array are undefined.
pub fn reads()
    ensures number { val (local 0) (holds (minus 31)) ≡ Some (minus 31) }
    ensures unset { val (local 0) unset ≡ None }
    ensures element { val (Elem (Local 0) (num 1)) (lists ty.Int (plus 31 ∷ plus 32 ∷ [])) ≡ Some (plus 32) }
    ensures at_length { val (Elem (Local 0) (num 2)) (lists ty.Int (plus 31 ∷ plus 32 ∷ [])) ≡ None }
    ensures below { val (Elem (Local 0) (Un un.Minus (num 1))) (lists ty.Int (plus 31 ∷ [])) ≡ None }
    ensures far { val (Elem (Local 0) (Num ty.Unsigned 4294967295)) (lists ty.Int (plus 31 ∷ [])) ≡ None }
    ensures unset_array { val (Elem (Local 0) (num 0)) unset ≡ None }
{}

/// `(int)e` and `(unsigned)e` (C11 6.5.4).
pub fn casts()
    ensures to_int { val (Cast ty.Int (Num ty.Unsigned 4294967295)) (store []) ≡ Some (minus 1) }
    ensures to_unsigned { val (Cast ty.Unsigned (Un un.Minus (num 1))) (store []) ≡ Some (Unsigned 4294967295) }
    ensures of_undefined { val (Cast ty.Int (local 0)) unset ≡ None }
{}

/// `c ? a : b` (C11 6.5.15): only the chosen one is evaluated, and converted to the common type of both.
pub fn choices()
    // -1 chosen beside 0u is 2^32 - 1
    ensures converted { val (Cond (num 1) (Un un.Minus (num 1)) (Num ty.Unsigned 0)) (store [])
        ≡ Some (Unsigned 4294967295) }
    ensures second { val (Cond (num 0) (Bin bin.Div (num 1) (num 0)) (num 32)) (store []) ≡ Some (plus 32) }
    ensures first { val (Cond (Num ty.Unsigned 2147483648) (num 31) (Bin bin.Div (num 1) (num 0))) (store [])
        ≡ Some (plus 31) }
    ensures undefined_condition { val (Cond (local 0) (num 1) (num 1)) unset ≡ None }
    ensures undefined_choice { val (Cond (num 1) (local 0) (num 1)) unset ≡ None }
{}

/// The right operand of `&&` and `||` is evaluated only where the left does not decide; of the others both are.
pub fn evaluated_operands()
    ensures and { val (Bin bin.Both (num 0) (Bin bin.Div (num 1) (num 0))) (store []) ≡ Some (plus 0) }
    ensures or { val (Bin bin.Either (num 32) (Bin bin.Div (num 1) (num 0))) (store []) ≡ Some (plus 1) }
    ensures and_both { val (Bin bin.Both (num 1) (Bin bin.Div (num 1) (num 0))) (store []) ≡ None }
    ensures product { val (Bin bin.Mul (num 0) (Bin bin.Div (num 1) (num 0))) (store []) ≡ None }
{}

/// The types of expressions.
pub fn types()
    ensures sum { type_of (Bin bin.Add (num 1) (Num ty.Unsigned 1)) (store []) ≡ ty.Unsigned }
    ensures left_shift { type_of (Bin bin.Shl (num 1) (Num ty.Unsigned 1)) (store []) ≡ ty.Int }
    ensures right_shift { type_of (Bin bin.Shr (Num ty.Unsigned 1) (num 1)) (store []) ≡ ty.Unsigned }
    ensures relation { type_of (Bin bin.Lt (Num ty.Unsigned 1) (Num ty.Unsigned 1)) (store []) ≡ ty.Int }
    ensures connective { type_of (Bin bin.Both (Num ty.Unsigned 1) (Num ty.Unsigned 1)) (store []) ≡ ty.Int }
    ensures not { type_of (Un un.Not (Num ty.Unsigned 1)) (store []) ≡ ty.Int }
    ensures negation { type_of (Un un.Minus (Num ty.Unsigned 1)) (store []) ≡ ty.Unsigned }
    ensures choice { type_of (Cond (num 1) (num 1) (Num ty.Unsigned 1)) (store []) ≡ ty.Unsigned }
    ensures name { type_of (local 0) (store (Unset ty.Unsigned ∷ [])) ≡ ty.Unsigned }
{}
