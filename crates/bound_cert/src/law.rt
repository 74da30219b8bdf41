//! Weak duality.

ghost use Rattle.bound_cert.specs.Law.{WeakDuality, DualOfCovered, WeakDualityWithoutBox};

/// The law of weak duality, over the definitions alone: where `d` is at least 1 and the multipliers of the rows that
/// are at most their right sides are not negative, every vector in the box that meets the rows costs at most the dual
/// value.
pub fn weak_duality()
    ensures { WeakDuality }
{}

/// The law of weak duality without a box, over the definitions alone, for multipliers that leave no edge a positive
/// reduced cost. The dual value over every box whose least counts are 0 is the sum of multiplier times right side over
/// the rows, divided by `d` and rounded down. Where the multipliers also fit the rows, no vector that meets the rows
/// costs more, however great its counts.
pub fn weak_duality_without_box()
    ensures value { DualOfCovered }
    ensures above { WeakDualityWithoutBox }
{}
