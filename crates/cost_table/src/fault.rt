//! Why a text is no table of costs.

use c_tree::{Name, NoMemory};
use std::alloc::AllocError;

/// Why a text is no table of costs for a program. Of several, the first of this list comes; `NoMemory` may come in
/// place of any of them.
#[derive(Debug, Drop)]
pub enum CostFault {
    /// The text is no TOML, as `toml` reads it.
    NotToml,
    /// The key `version` is absent or is not the whole number 1.
    Version,
    /// This key at the top is none of `version`, `default` and `cost`, or it is `cost` and no table. It is the first in
    /// byte order.
    Key { name: Name },
    /// This key of `cost` names no block of the program. It is the first in byte order.
    Block { name: Name },
    /// `default`, or else the value of this key of `cost`, is no whole number from 0 to 4,294,967,295. It is the first
    /// in byte order.
    Number { name: Name },
    /// There is no `default`, and this block has no entry. It is the first in block order: by the functions of the
    /// text, then by number.
    Missing { name: Name },
    /// Want of memory.
    NoMemory,
}

impl From<AllocError> for CostFault {
    ghost use Rattle.cost_table.specs.declared.fault.CostFault.TheVariants as fault;
    ghost use Rattle.std.specs.Prelude.{◌≡◌};

    ghost from_gives = { λ _ e. e ≡ fault.NoMemory };

    fn from(_error: AllocError) -> CostFault {
        CostFault::NoMemory
    }
}

impl From<NoMemory> for CostFault {
    ghost use Rattle.cost_table.specs.declared.fault.CostFault.TheVariants as fault;
    ghost use Rattle.std.specs.Prelude.{◌≡◌};

    ghost from_gives = { λ _ e. e ≡ fault.NoMemory };

    fn from(_error: NoMemory) -> CostFault {
        CostFault::NoMemory
    }
}
