//! How runs end.

/// How the run of a program on an input ends (C11 6.8, and this project's own loop bounds and costs).
#[derive(Clone, Copy, Debug, PartialEq, Eq)]
pub enum RunEnd {
    /// It ends; `cost` is the sum of the costs of the blocks that it entered.
    Ends { cost: u128 },
    /// It comes to a step that C leaves undefined, before any loop passes its bound.
    Undefined,
    /// A loop's body would be entered more often than its bound within one entry of the loop, before an undefined step.
    OverBound,
}
