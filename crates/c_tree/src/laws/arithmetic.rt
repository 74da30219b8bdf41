//! Division in the standard's words.

ghost use Rattle.std.specs.Prelude.{◌≡◌, ◌<◌, ◌+◌, ◌*◌, ◌+ℤ◌, ◌*ℤ◌, ℕ, ℤ, Some};
ghost use Rattle.c_tree.specs.declared.value.Value.TheVariants.{Int, Unsigned};
ghost use Rattle.c_tree.specs.Meaning.Operators.{int_quotient, int_remainder, quotient, remainder};

/// Where both are defined, the quotient times the divisor, and the remainder added, is the dividend (C11 6.5.5).
pub fn divisions_are_exact()
    ensures int { (x y q r : ℤ) → int_quotient x y ≡ Some (Int q) → int_remainder x y ≡ Some (Int r)
        → (q *ℤ y) +ℤ r ≡ x }
    ensures unsigned { (m n q r : ℕ) → quotient m n ≡ Some (Unsigned q) → remainder m n ≡ Some (Unsigned r)
        → (q * n + r ≡ m) × (r < n) }
{}
