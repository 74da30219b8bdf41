//! A unit with its names replaced by numbers.

ghost use Rattle.std.specs.Prelude.{◌≡◌, None, IfOk};
ghost use Rattle.c_tree.specs.Checking.Naming.{file_start, globals_of, funcs_of};
ghost use Rattle.c_tree.specs.Checking.Uses.{uses};
ghost use Rattle.c_faults.specs.Verdicts.{after_uses};

use crate::checker::Checker;
use crate::unit::UnitChecker;
use c_faults::Verdict;
use c_tree::{Func, Global as Outside, NoMemory, Unit};
use sqlite_items::Items;
use std::alloc::Global;

/// The globals and the functions of a unit with its names replaced by numbers, and what is wrong with its uses. Where
/// a fault stands a name may have any number.
#[derive(Drop)]
pub struct Resolved {
    pub globals: Items<Outside>,
    pub funcs: Items<Func>,
    pub verdict: Verdict,
}

/// A unit with its names replaced by numbers, and the first fault of its single uses: of its names, kinds, calls,
/// constants, arrays, loops, and of what leaves them. A name is in scope from the end of its declarator, its own
/// initialiser included, to the end of the list or the `for` that declares it (C11 6.2.1); functions are known in the
/// whole unit. It fails for want of memory alone.
pub fn resolve(alloc: Global, unit: &Unit) -> Result<Resolved, NoMemory>
    ensures globals { IfOk result (λ r. r.globals ≡ globals_of unit.now.tops) }
    ensures funcs { IfOk result (λ r. r.funcs ≡ funcs_of (file_start unit.now.tops) unit.now.tops) }
    ensures verdict { IfOk result (λ r. r.verdict ≡ after_uses None (uses unit.now)) }
{
    let tops = unit.tops.as_slice();
    let mut walk = UnitChecker::start(alloc, tops)?;
    walk.tops(tops)?;
    let UnitChecker {
        checker,
        globals,
        funcs,
    } = walk;
    let Checker { verdict, .. } = checker;
    Ok(Resolved {
        globals,
        funcs,
        verdict,
    })
}
