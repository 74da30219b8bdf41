//! Who takes turns.

ghost use Rattle.std.specs.Prelude.{◌≡◌};
ghost use Rattle.race_item.specs.RaceLimits.{AreLimits};

use crate::settling::{Turned, settle};
use c_tree::{Input, NoMemory};
use ipet_peak::peak;
use ipet_rows::SoundRows;
use lin_rows::Multipliers;
use race_item::{Item, Limits, Refuter, Settlement};
use sqlite_items::Items;
use std::alloc::Global;

/// Takes turns on the items of some rows: it refutes an item, splits it, finds its dearest run, or parks it. It keeps
/// an input that drove an item, and the multipliers of the plan's optimum once it has made them; no contract speaks of
/// these.
#[derive(Drop)]
pub struct Turner<'p> {
    rows: &'p SoundRows<'p>,
    limits: Limits,
    known: Option<Input>,
    multipliers: Option<Items<Multipliers>>,
    ghost allowed: { AreLimits limits },
}

impl<'p> Turner<'p> {
    /// One for the items of these rows, with these limits. It takes no memory.
    pub fn new(rows: &'p SoundRows<'p>, limits: Limits) -> Turner<'p>
        requires { AreLimits limits }
        ensures rows { ⟦<Turner<'p> as Refuter<'p>>⟧.rows result ≡ rows.now }
        ensures limit { ⟦<Turner<'p> as Refuter<'p>>⟧.limit result ≡ limits.conflicts }
    {
        Turner {
            rows,
            limits,
            known: None,
            multipliers: None,
        }
    }
}

impl<'p> Refuter<'p> for Turner<'p> {
    ghost rows = { λ t. t.rows.now };

    ghost limit = { λ t. t.limits.conflicts };

    fn turn(&mut self, alloc: Global, item: &Item<'p>) -> Result<Settlement<'p>, NoMemory> {
        if self.multipliers.is_none() {
            let by = multipliers(alloc, self.rows)?;
            self.multipliers = Some(by);
        }
        let by = match &self.multipliers {
            None => &[],
            Some(by) => by.as_slice(),
        };
        let Turned { settled, input } = settle(
            alloc,
            item,
            self.known.as_ref(),
            by,
            self.limits.conflicts,
        )?;
        if input.is_some() {
            self.known = input;
        }
        Ok(settled)
    }
}

// Multipliers whose dual values bound what paths cost: none, which bounds by what the edges cost, and those of the
// plan's optimum.
fn multipliers<'p>(alloc: Global, rows: &'p SoundRows<'p>) -> Result<Items<Multipliers>, NoMemory> {
    let y = vec![in alloc; 0i128; rows.rows().rows().len()]?;
    let optimum = peak(alloc, rows.plan())?;
    let mut by = Items::new(alloc);
    by.push(Multipliers::new(1, y))?;
    by.push(optimum.by)?;
    Ok(by)
}
