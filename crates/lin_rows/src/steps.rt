//! Steps of an evaluation in `i128`.

ghost use Rattle.std.specs.Prelude.{◌+ℤ◌, ◌-ℤ◌, ◌*ℤ◌, FitsSigned};
ghost use Rattle.std.specs.Int.{w128};
ghost use Rattle.std.specs.Option.{SomeIff};

/// `sum` plus `factor` times `count`, or `None` exactly where the product or the sum leaves `i128`. It takes no memory.
pub fn add_product(sum: i128, factor: i128, count: i128) -> Option<i128>
    ensures { SomeIff result (FitsSigned w128 (factor *ℤ count) × FitsSigned w128 (sum +ℤ factor *ℤ count))
        (sum +ℤ factor *ℤ count) }
{
    sum.checked_add(factor.checked_mul(count)?)
}

/// `rest` less `factor` times `count`, or `None` exactly where the product or the difference leaves `i128`. It takes no
/// memory.
pub fn subtract_product(rest: i128, factor: i128, count: i128) -> Option<i128>
    ensures { SomeIff result (FitsSigned w128 (factor *ℤ count) × FitsSigned w128 (rest -ℤ factor *ℤ count))
        (rest -ℤ factor *ℤ count) }
{
    rest.checked_sub(factor.checked_mul(count)?)
}
