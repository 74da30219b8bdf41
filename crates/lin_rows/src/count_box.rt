//! Limits on the counts of edges.

ghost use Rattle.std.specs.Prelude.{◌≡◌, ◌≤◌, ◌↔◌, IsTrue, IsSome, IfSome, All};

use sqlite_items::Items;

/// For each edge the least and the greatest count that it may have, the least at most the greatest.
#[derive(Debug, Drop)]
pub struct CountBox {
    pub limits: Items<(u64, u64)>,
    ghost ordered: { All (λ limit. limit.0 ≤ limit.1) limits },
}

impl CountBox {
    /// The box of these limits, or `None` exactly where a least count is above its greatest.
    pub fn new(limits: Vec<(u64, u64)>) -> Option<CountBox>
        ensures made { IsSome result ↔ All (λ limit. limit.0 ≤ limit.1) limits.items }
        ensures limits { IfSome result (λ made. made.limits ≡ limits.items) }
    {
        let limits = Items::from_vec(limits);
        if are_ordered(limits.as_slice()) {
            Some(CountBox { limits })
        } else {
            None
        }
    }

    /// The limits, in the order of the edges.
    pub fn limits(&self) -> &[(u64, u64)]
        ensures value { result.now ≡ self.now.limits }
        ensures ordered { All (λ limit. limit.0 ≤ limit.1) result.now }
    {
        self.limits.as_slice()
    }
}

// Whether each first limit is at most the second.
fn are_ordered(limits: &[(u64, u64)]) -> bool
    ensures { IsTrue result ↔ All (λ limit. limit.0 ≤ limit.1) limits.now }
{
    limits.iter().all(|limit| limit.0 <= limit.1)
}
