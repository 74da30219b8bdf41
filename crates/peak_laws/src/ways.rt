//! The dearest ways through a part of a flat graph, by how they leave it.

/// How a node with one end leaves its part: by the part's end, or as a jump does (C11 6.8.6).
#[derive(Clone, Copy, Debug)]
pub enum Leaving {
    /// To what stands after the part.
    ByEnd,
    /// By `break`, out of the loop around it.
    ByBreak,
    /// By `continue`, to the step or the condition of the loop around it.
    ByContinue,
    /// By `return`, out of the function.
    ByReturn,
}

/// The cost of the dearest way through a part by each of the four ways out, in the unit of the cost table. It is `None`
/// where no way leaves the part so.
#[derive(Clone, Copy, Debug)]
pub struct Ways {
    /// By its end.
    pub next: Option<u128>,
    /// By `break`.
    pub breaks: Option<u128>,
    /// By `continue`.
    pub continues: Option<u128>,
    /// By `return`.
    pub returns: Option<u128>,
}
