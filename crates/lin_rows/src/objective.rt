//! What each edge costs.

ghost use Rattle.std.specs.Prelude.{◌≡◌};

use sqlite_items::Items;

/// The cost of each edge, for each time that it is counted.
#[derive(Debug, Drop)]
pub struct Objective {
    pub costs: Items<u64>,
}

impl Objective {
    /// The objective of these costs, one an edge.
    pub fn new(costs: Vec<u64>) -> Objective
        ensures { result.costs ≡ costs.items }
    {
        Objective {
            costs: Items::from_vec(costs),
        }
    }

    /// The costs, in the order of the edges.
    pub fn costs(&self) -> &[u64]
        ensures { result.now ≡ self.now.costs }
    {
        self.costs.as_slice()
    }
}
