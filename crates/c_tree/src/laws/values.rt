//! Worked values of ranges and conversions. `plus n` is the `int` n, `minus n` the `int` -n.

ghost use Rattle.std.specs.Prelude.{◌≡◌, true, false, pos, neg_ℤ};
ghost use Rattle.c_tree.specs.declared.tree.Ty.TheVariants as ty;
ghost use Rattle.c_tree.specs.declared.value.Value.TheVariants.{Unsigned};
ghost use Rattle.c_tree.specs.Meaning.Literals.{plus, minus};
ghost use Rattle.c_tree.specs.Meaning.Values.{common, is_of, convert, word, of_word};

/// The ranges: -2^31 to 2^31 - 1, and 0 to 2^32 - 1 (C11 6.2.5; the width is this project's own).
pub fn ranges()
    ensures greatest_int { is_of ty.Int (pos 2147483647) ≡ true }
    ensures above_int { is_of ty.Int (pos 2147483648) ≡ false }
    ensures least_int { is_of ty.Int (neg_ℤ (pos 2147483648)) ≡ true }
    ensures below_int { is_of ty.Int (neg_ℤ (pos 2147483649)) ≡ false }
    ensures greatest_unsigned { is_of ty.Unsigned (pos 4294967295) ≡ true }
    ensures above_unsigned { is_of ty.Unsigned (pos 4294967296) ≡ false }
    ensures below_unsigned { is_of ty.Unsigned (neg_ℤ (pos 1)) ≡ false }
{}

/// The common type is `unsigned` if one of two is (C11 6.3.1.8).
pub fn common_types()
    ensures ints { common ty.Int ty.Int ≡ ty.Int }
    ensures right { common ty.Int ty.Unsigned ≡ ty.Unsigned }
    ensures left { common ty.Unsigned ty.Int ≡ ty.Unsigned }
    ensures unsigned { common ty.Unsigned ty.Unsigned ≡ ty.Unsigned }
{}

/// Conversion to `unsigned` is modulo 2^32; to `int` it keeps what fits, and else takes 2^32 off (C11 6.3.1.3; the
/// latter is this project's own).
pub fn conversions()
    ensures kept { convert ty.Int (Unsigned 2147483647) ≡ plus 2147483647 }
    ensures least { convert ty.Int (Unsigned 2147483648) ≡ minus 2147483648 }
    ensures minus_one { convert ty.Int (Unsigned 4294967295) ≡ minus 1 }
    ensures int_to_int { convert ty.Int (minus 31) ≡ minus 31 }
    ensures from_minus_one { convert ty.Unsigned (minus 1) ≡ Unsigned 4294967295 }
    ensures from_least { convert ty.Unsigned (minus 2147483648) ≡ Unsigned 2147483648 }
    ensures from_greatest { convert ty.Unsigned (plus 2147483647) ≡ Unsigned 2147483647 }
    ensures unsigned_to_unsigned { convert ty.Unsigned (Unsigned 32) ≡ Unsigned 32 }
{}

/// The 32 bits of a value, as a number (two's complement, this project's own).
pub fn words()
    ensures minus_one { word (minus 1) ≡ 4294967295 }
    ensures least { word (minus 2147483648) ≡ 2147483648 }
    ensures of_minus_one { of_word ty.Int 4294967295 ≡ minus 1 }
    ensures of_least { of_word ty.Int 2147483648 ≡ minus 2147483648 }
    ensures of_unsigned { of_word ty.Unsigned 4294967295 ≡ Unsigned 4294967295 }
{}
