//! Worked values of the operators on values. `plus n` is the `int` n, `minus n` the `int` -n, and None says undefined.
//! Each value is worked out from the rule that stands above it.

ghost use Rattle.std.specs.Prelude.{◌≡◌, Some, None};
ghost use Rattle.c_tree.specs.declared.tree.UnOp.TheVariants as un;
ghost use Rattle.c_tree.specs.declared.tree.BinOp.TheVariants as bin;
ghost use Rattle.c_tree.specs.declared.value.Value.TheVariants.{Unsigned};
ghost use Rattle.c_tree.specs.Meaning.Literals.{plus, minus};
ghost use Rattle.c_tree.specs.Meaning.Operators.{unary, binary, operation_value};

/// `+` (C11 6.5.6).
pub fn sums()
    ensures small { binary bin.Add (plus 31) (plus 32) ≡ Some (plus 63) }
    ensures inside { binary bin.Add (plus 2147483647) (minus 2147483648) ≡ Some (minus 1) }

    // an `int` past its range is undefined: 2^31, and -2^31 - 1
    ensures above_int { binary bin.Add (plus 2147483647) (plus 1) ≡ None }
    ensures below_int { binary bin.Add (minus 2147483648) (minus 1) ≡ None }

    // the common type is `unsigned`, modulo 2^32: 2^32; 0 + (2^32 - 1); 2^31 + 2^31
    ensures wraps { binary bin.Add (Unsigned 4294967295) (plus 1) ≡ Some (Unsigned 0) }
    ensures converts { binary bin.Add (Unsigned 0) (minus 1) ≡ Some (Unsigned 4294967295) }
    ensures least { binary bin.Add (minus 2147483648) (Unsigned 2147483648) ≡ Some (Unsigned 0) }
{}

/// Binary `-` (C11 6.5.6).
pub fn differences()
    ensures least { binary bin.Sub (minus 1) (plus 2147483647) ≡ Some (minus 2147483648) }

    // an `int` past its range is undefined: 2^31, and -2^31 - 1
    ensures above_int { binary bin.Sub (plus 0) (minus 2147483648) ≡ None }
    ensures below_int { binary bin.Sub (minus 2147483648) (plus 1) ≡ None }

    // modulo 2^32: -1; 0 - (2^32 - 1) = 1 - 2^32; 31 - 32
    ensures wraps { binary bin.Sub (Unsigned 0) (Unsigned 1) ≡ Some (Unsigned 4294967295) }
    ensures mixed { binary bin.Sub (plus 0) (Unsigned 4294967295) ≡ Some (Unsigned 1) }
    ensures small { binary bin.Sub (Unsigned 31) (plus 32) ≡ Some (Unsigned 4294967295) }
{}

/// `*` (C11 6.5.5).
pub fn products()
    ensures small { binary bin.Mul (plus 32) (plus 31) ≡ Some (plus 992) }
    ensures by_one { binary bin.Mul (minus 2147483648) (plus 1) ≡ Some (minus 2147483648) }
    ensures by_zero { binary bin.Mul (plus 0) (minus 2147483648) ≡ Some (plus 0) }

    // an `int` past its range is undefined: 2^32 - 2, and 2^31
    ensures above_int { binary bin.Mul (plus 2147483647) (plus 2) ≡ None }
    ensures least { binary bin.Mul (minus 2147483648) (minus 1) ≡ None }

    // (2^32 - 1)^2 = 2^32 * (2^32 - 2) + 1, and -1 converts to 2^32 - 1
    ensures wraps { binary bin.Mul (Unsigned 4294967295) (Unsigned 4294967295) ≡ Some (Unsigned 1) }
    ensures mixed { binary bin.Mul (Unsigned 4294967295) (minus 1) ≡ Some (Unsigned 1) }
{}

/// `/` (C11 6.5.5).
pub fn quotients()
    // truncated toward zero: -31/32; -2^31/2^5 = -2^26; (2^31 - 1)/-1
    ensures toward_zero { binary bin.Div (minus 31) (plus 32) ≡ Some (plus 0) }
    ensures least { binary bin.Div (minus 2147483648) (plus 32) ≡ Some (minus 67108864) }
    ensures sign { binary bin.Div (plus 2147483647) (minus 1) ≡ Some (minus 2147483647) }

    // undefined: the divisor 0 of either type, and -2^31 by -1
    ensures int_by_zero { binary bin.Div (plus 1) (plus 0) ≡ None }
    ensures unsigned_by_zero { binary bin.Div (plus 0) (Unsigned 0) ≡ None }
    ensures least_by_minus_one { binary bin.Div (minus 2147483648) (minus 1) ≡ None }

    // in `unsigned`: (2^32 - 1)/32 = 2^27 - 1, with -1 as 2^32 - 1 and -2^31 as 2^31
    ensures unsigned { binary bin.Div (Unsigned 4294967295) (plus 32) ≡ Some (Unsigned 134217727) }
    ensures mixed { binary bin.Div (minus 1) (Unsigned 32) ≡ Some (Unsigned 134217727) }
    ensures by_greatest { binary bin.Div (minus 2147483648) (Unsigned 4294967295) ≡ Some (Unsigned 0) }
    ensures minus_one_as_divisor { binary bin.Div (Unsigned 4294967295) (minus 1) ≡ Some (Unsigned 1) }
{}

/// `%` (C11 6.5.5).
pub fn remainders()
    // (a/b)*b + a%b = a: 0*32 - 31; 0*-32 + 31; -69273666*31 - 2; -(2^31 - 1)*-1 + 0
    ensures sign_of_left { binary bin.Rem (minus 31) (plus 32) ≡ Some (minus 31) }
    ensures sign_of_right { binary bin.Rem (plus 31) (minus 32) ≡ Some (plus 31) }
    ensures least { binary bin.Rem (minus 2147483648) (plus 31) ≡ Some (minus 2) }
    ensures by_minus_one { binary bin.Rem (plus 2147483647) (minus 1) ≡ Some (plus 0) }

    // undefined: the divisor 0 of either type, and -2^31 by -1
    ensures int_by_zero { binary bin.Rem (plus 1) (plus 0) ≡ None }
    ensures unsigned_by_zero { binary bin.Rem (Unsigned 1) (plus 0) ≡ None }
    ensures least_by_minus_one { binary bin.Rem (minus 2147483648) (minus 1) ≡ None }

    // in `unsigned`: 2^32 - 1 = (2^27 - 1)*32 + 31 = 138547332*31 + 3
    ensures unsigned { binary bin.Rem (Unsigned 4294967295) (plus 32) ≡ Some (Unsigned 31) }
    ensures mixed { binary bin.Rem (minus 1) (Unsigned 31) ≡ Some (Unsigned 3) }
{}

/// `<<` (C11 6.5.7).
pub fn left_shifts()
    ensures below_sign { binary bin.Shl (plus 1) (plus 30) ≡ Some (plus 1073741824) }
    ensures zero { binary bin.Shl (plus 0) (plus 31) ≡ Some (plus 0) }
    ensures by_zero { binary bin.Shl (plus 2147483647) (plus 0) ≡ Some (plus 2147483647) }

    // an `int` is undefined where the product is 2^31 or more, and where the left operand is negative
    ensures into_sign { binary bin.Shl (plus 1) (plus 31) ≡ None }
    ensures above_int { binary bin.Shl (plus 2147483647) (plus 1) ≡ None }
    ensures negative { binary bin.Shl (minus 1) (plus 0) ≡ None }

    // counts are 0 to 31, of either type
    ensures count_32 { binary bin.Shl (Unsigned 1) (plus 32) ≡ None }
    ensures count_below { binary bin.Shl (plus 1) (minus 1) ≡ None }
    ensures count_greatest { binary bin.Shl (plus 0) (Unsigned 4294967295) ≡ None }

    // `unsigned` is modulo 2^32: 2^31, and (2^32 - 1)*2^31 = (2^31 - 1)*2^32 + 2^31
    ensures unsigned { binary bin.Shl (Unsigned 1) (plus 31) ≡ Some (Unsigned 2147483648) }
    ensures wraps { binary bin.Shl (Unsigned 4294967295) (plus 31) ≡ Some (Unsigned 2147483648) }

    // the type is the left operand's, whatever the count's
    ensures int_by_unsigned { binary bin.Shl (plus 1) (Unsigned 31) ≡ None }
    ensures stays_int { binary bin.Shl (plus 1) (Unsigned 4) ≡ Some (plus 16) }
{}

/// `>>` (C11 6.5.7; of a negative number this project's own).
pub fn right_shifts()
    // the floor of the quotient: -2^31/2^31; -1/2^31; -31/2; (2^31 - 1)/2^30; (2^32 - 1)/2^31
    ensures least { binary bin.Shr (minus 2147483648) (plus 31) ≡ Some (minus 1) }
    ensures minus_one { binary bin.Shr (minus 1) (plus 31) ≡ Some (minus 1) }
    ensures floor { binary bin.Shr (minus 31) (plus 1) ≡ Some (minus 16) }
    ensures positive { binary bin.Shr (plus 2147483647) (plus 30) ≡ Some (plus 1) }
    ensures unsigned { binary bin.Shr (Unsigned 4294967295) (plus 31) ≡ Some (Unsigned 1) }

    // counts are 0 to 31, of either type
    ensures count_32 { binary bin.Shr (plus 0) (plus 32) ≡ None }
    ensures count_below { binary bin.Shr (Unsigned 1) (minus 1) ≡ None }
    ensures count_unsigned_32 { binary bin.Shr (plus 1) (Unsigned 32) ≡ None }

    // the type is the left operand's
    ensures stays_int { binary bin.Shr (minus 2147483648) (Unsigned 0) ≡ Some (minus 2147483648) }
    ensures stays_unsigned { binary bin.Shr (Unsigned 32) (plus 1) ≡ Some (Unsigned 16) }
{}

/// `&`, `^` and `|` (C11 6.5.10 to 6.5.12; two's complement is this project's own).
pub fn bitwise()
    // -1 has 32 bits of 1, -2^31 the highest bit alone, 2^31 - 1 all others
    ensures and { binary bin.And (minus 1) (plus 2147483647) ≡ Some (plus 2147483647) }
    ensures and_sign { binary bin.And (minus 2147483648) (minus 1) ≡ Some (minus 2147483648) }
    ensures and_apart { binary bin.And (plus 32) (plus 31) ≡ Some (plus 0) }
    ensures or { binary bin.Or (plus 2147483647) (minus 2147483648) ≡ Some (minus 1) }
    ensures or_apart { binary bin.Or (plus 32) (plus 31) ≡ Some (plus 63) }
    ensures xor { binary bin.Xor (minus 1) (plus 31) ≡ Some (minus 32) }

    // the common type is `unsigned`
    ensures and_mixed { binary bin.And (minus 1) (Unsigned 31) ≡ Some (Unsigned 31) }
    ensures or_mixed { binary bin.Or (Unsigned 0) (minus 2147483648) ≡ Some (Unsigned 2147483648) }
    ensures xor_mixed { binary bin.Xor (minus 1) (Unsigned 4294967295) ≡ Some (Unsigned 0) }
{}

/// `<`, `>`, `<=`, `>=`, `==` and `!=` (C11 6.5.8, 6.5.9): the `int` 1 or 0.
pub fn relations()
    ensures less { binary bin.Lt (minus 1) (plus 0) ≡ Some (plus 1) }
    ensures less_equal { binary bin.Lt (plus 31) (plus 31) ≡ Some (plus 0) }
    ensures at_most { binary bin.Le (plus 2147483647) (plus 2147483647) ≡ Some (plus 1) }
    ensures greater { binary bin.Gt (minus 2147483648) (plus 2147483647) ≡ Some (plus 0) }
    ensures at_least { binary bin.Ge (minus 2147483648) (minus 2147483648) ≡ Some (plus 1) }
    ensures same { binary bin.Eq (plus 31) (plus 32) ≡ Some (plus 0) }
    ensures differs { binary bin.Ne (plus 31) (plus 32) ≡ Some (plus 1) }

    // compared as `unsigned` where one operand is: -1 as 2^32 - 1, -2^31 as 2^31
    ensures less_mixed { binary bin.Lt (minus 1) (Unsigned 0) ≡ Some (plus 0) }
    ensures at_most_mixed { binary bin.Le (Unsigned 2147483648) (plus 2147483647) ≡ Some (plus 0) }
    ensures greater_mixed { binary bin.Gt (Unsigned 4294967295) (minus 1) ≡ Some (plus 0) }
    ensures at_least_mixed { binary bin.Ge (minus 1) (Unsigned 4294967295) ≡ Some (plus 1) }
    ensures same_mixed { binary bin.Eq (Unsigned 2147483648) (minus 2147483648) ≡ Some (plus 1) }
    ensures differs_mixed { binary bin.Ne (minus 1) (Unsigned 4294967295) ≡ Some (plus 0) }
{}

/// `&&` and `||` (C11 6.5.13, 6.5.14): the `int` 1 or 0, and the right operand only where the left does not decide.
pub fn connectives()
    ensures both { operation_value bin.Both (Some (minus 2147483648)) (Some (Unsigned 4294967295)) ≡ Some (plus 1) }
    ensures both_not_right { operation_value bin.Both (Some (Unsigned 32)) (Some (plus 0)) ≡ Some (plus 0) }
    ensures both_not_left { operation_value bin.Both (Some (plus 0)) None ≡ Some (plus 0) }
    ensures both_undefined { operation_value bin.Both (Some (plus 1)) None ≡ None }
    ensures both_left_undefined { operation_value bin.Both None (Some (plus 0)) ≡ None }
    ensures either_left { operation_value bin.Either (Some (minus 1)) None ≡ Some (plus 1) }
    ensures either_right { operation_value bin.Either (Some (Unsigned 0)) (Some (plus 31)) ≡ Some (plus 1) }
    ensures neither { operation_value bin.Either (Some (plus 0)) (Some (Unsigned 0)) ≡ Some (plus 0) }
    ensures either_undefined { operation_value bin.Either (Some (plus 0)) None ≡ None }
    ensures either_left_undefined { operation_value bin.Either None (Some (plus 1)) ≡ None }
{}

/// `+`, `-`, `~` and `!` (C11 6.5.3.3).
pub fn unary_operators()
    ensures kept { unary un.Plus (minus 2147483648) ≡ Some (minus 2147483648) }

    // 0 - e in the type of e: undefined for 2^31, and 2^32 - 1 for 1 of `unsigned`
    ensures negated { unary un.Minus (plus 2147483647) ≡ Some (minus 2147483647) }
    ensures negated_least { unary un.Minus (minus 2147483648) ≡ None }
    ensures negated_unsigned { unary un.Minus (Unsigned 1) ≡ Some (Unsigned 4294967295) }
    ensures negated_zero { unary un.Minus (Unsigned 0) ≡ Some (Unsigned 0) }

    // every bit the other way
    ensures flipped_zero { unary un.Flip (plus 0) ≡ Some (minus 1) }
    ensures flipped_greatest { unary un.Flip (plus 2147483647) ≡ Some (minus 2147483648) }
    ensures flipped_unsigned { unary un.Flip (Unsigned 31) ≡ Some (Unsigned 4294967264) }

    // the `int` 1 for 0 alone
    ensures not_zero { unary un.Not (Unsigned 0) ≡ Some (plus 1) }
    ensures not_minus_one { unary un.Not (minus 1) ≡ Some (plus 0) }
    ensures not_greatest { unary un.Not (Unsigned 4294967295) ≡ Some (plus 0) }
{}
