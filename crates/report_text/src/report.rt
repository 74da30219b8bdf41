//! Reports.

use sqlite_items::Items;

/// A shown value. Costs are in the unit of the cost table.
#[derive(Clone, Copy, Debug, PartialEq, Eq)]
pub struct Shown {
    /// No run that is left to look at, or was found, costs more; none where there is no such run.
    pub bound: Option<u128>,
    /// The cost of the dearest run that was found, if one was.
    pub best: Option<u128>,
}

/// What was spent before the search ended.
#[derive(Clone, Copy, Debug, PartialEq, Eq)]
pub enum Spent {
    /// The turns of the workers.
    Turns,
    /// The conflicts of a refutation.
    Conflicts,
    /// The weight of a condition.
    Weight,
}

/// How the search ended.
#[derive(Debug, Drop)]
pub enum Last {
    /// The bound is the cost of the run of an input, whose text this is.
    Exact(u128, Items<u8>),
    /// No run is defined that keeps the bounds of its loops.
    Nothing,
    /// A limit was spent: the bound and the best that stand then, what was spent, and its limit.
    Inexact {
        bound: u128,
        best: Option<u128>,
        spent: Spent,
        limit: u32,
    },
}

/// A report: the number of block copies, the first bound, the values shown in order, and the end.
#[derive(Debug, Drop)]
pub struct Report {
    /// The number of block copies.
    pub copies: u32,
    /// The first bound: the optimum of the flow rows.
    pub ipet: u128,
    /// The values that were shown, in order; none where nobody watched.
    pub shown: Items<Shown>,
    /// How the search ended.
    pub last: Last,
}

/// A line of a report.
#[derive(Debug, Drop)]
pub enum ReportLine {
    /// `blocks N`.
    Copies(u32),
    /// `ipet N`.
    Ipet(u128),
    /// `bound N`, or `bound none`.
    Bound(Option<u128>),
    /// `found N`.
    Found(u128),
    /// `exact N`.
    Exact(u128),
    /// `input`, and the input text behind a blank where it is not empty.
    Input(Items<u8>),
    /// `none`.
    Nothing,
    /// `inexact N`.
    Inexact(u128),
    /// `best N`, or `best none`.
    Best(Option<u128>),
    /// `spent turns N`, `spent conflicts N`, or `spent weight N`.
    Spent(Spent, u32),
}
