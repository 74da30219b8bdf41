//! The laws of the first key and of the costs that are given, and worked tables.

ghost use Rattle.std.specs.Prelude.{◌≡◌, ℕ, List, [], ◌∷◌, Bool, true, None, IsSome, Ok, Err, codes};
ghost use Rattle.toml.specs.Data.{Data, Members};
ghost use Rattle.c_tree.specs.declared.program.Func.{Func};
ghost use Rattle.cost_document.specs.Documents.{first_key, written_cost};
ghost use Rattle.cost_table.specs.Orders.{IsFirstOrNone};
ghost use Rattle.cost_table.specs.Tables.{names_block, table_fault, verdict, costs_of_one};
ghost use Rattle.cost_table.specs.Worked.{two_blocks};

use crate::fault::CostFault;

/// The key that a fault names is the first in byte order of those at fault, and there is none where no key is at fault.
#[tactic(auto, using(crate::proofs::FirstInOrder::first_in_order))]
pub fn first_in_byte_order()
    ensures { (test : List ℕ → Data → Bool) (ms : Members) → IsFirstOrNone test ms (first_key test ms) }
{}

/// Where a table has no fault, each block that it is asked for has a cost.
pub fn costs_are_given()
    ensures { (fs : List Func) (ms : Members) (name : List ℕ) → table_fault fs ms ≡ None → names_block fs name ≡ true
        → IsSome (written_cost ms name) }
{}

/// Tables for `main` with two blocks.
#[tactic(auto, using(crate::proofs::WorkedTables::worked_tables))]
pub fn worked_tables()
    ensures no_toml { verdict two_blocks (codes "version = \n") ≡ Err CostFault.NotToml }
    ensures other_version { verdict two_blocks (codes "version = 2\n") ≡ Err CostFault.Version }
    ensures other_keys { verdict two_blocks (codes "version = 1\nzeta = 1\nalpha = 1\n")
        ≡ Err (CostFault.Key (codes "alpha")) }
    ensures other_block { verdict two_blocks (codes "version = 1\ndefault = 1\n[cost]\n\"main:9\" = 1\n")
        ≡ Err (CostFault.Block (codes "main:9")) }
    ensures no_number { verdict two_blocks (codes "version = 1\ndefault = true\n")
        ≡ Err (CostFault.Number (codes "default")) }
    ensures no_cost { verdict two_blocks (codes "version = 1\n[cost]\n\"main:1\" = 7\n")
        ≡ Err (CostFault.Missing (codes "main:0")) }
    ensures one_entry { verdict two_blocks (codes "version = 1\ndefault = 1\n[cost]\n\"main:1\" = 7\n")
        ≡ Ok (record { by_func = (1 ∷ 7 ∷ []) ∷ [] }) }
    ensures plain_ones { costs_of_one two_blocks ≡ record { by_func = (1 ∷ 1 ∷ []) ∷ [] } }
{}
