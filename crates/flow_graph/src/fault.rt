//! Why a program has no plan.

use c_tree::{BlockName, NoMemory};
use std::alloc::AllocError;

/// Why a program has no plan. Where several hold, the first of them is answered; `NoMemory` may stand before any other.
#[derive(Clone, Copy, Debug, PartialEq, Eq)]
pub enum PlanFault {
    /// With calls inlined there are more than 1,024 block copies.
    Blocks,
    /// There are more than 2,048 edges.
    Edges,
    /// `block` is that of the first block copy, in the order of nodes, whose cap is above 2^40.
    Cap { block: BlockName },
    /// Want of memory.
    NoMemory,
}

impl From<NoMemory> for PlanFault {
    ghost use Rattle.flow_graph.specs.declared.fault.PlanFault.TheVariants as fault;
    ghost use Rattle.std.specs.Prelude.{◌≡◌};

    ghost from_gives = { λ _ e. e ≡ fault.NoMemory };

    fn from(_: NoMemory) -> PlanFault {
        PlanFault::NoMemory
    }
}

impl From<AllocError> for PlanFault {
    ghost use Rattle.flow_graph.specs.declared.fault.PlanFault.TheVariants as fault;
    ghost use Rattle.std.specs.Prelude.{◌≡◌};

    ghost from_gives = { λ _ e. e ≡ fault.NoMemory };

    fn from(_: AllocError) -> PlanFault {
        PlanFault::NoMemory
    }
}
