//! The factors of edges in rows.

ghost use Rattle.std.specs.Prelude.{◌≡◌, ◌++◌, IfOk};
ghost use Rattle.ipet_rows.specs.FlowRows.{one_if, term, node_factor, turn_factor};

use c_tree::NoMemory;
use flow_graph::{Edge, Loop};
use sqlite_items::Items;

/// Adds the term of an edge; of the factor 0 there is none.
pub(crate) fn push_term(
    terms: &mut Items<(u16, i128)>,
    e: u16,
    factor: i128,
) -> Result<(), NoMemory>
    ensures { IfOk result (λ u. terms.new ≡ terms.old ++ term e factor) }
{
    if factor != 0 {
        terms.push((e, factor))?;
    }
    Ok(())
}

/// 1 where the edge leaves the node, less 1 where it leads to it.
pub(crate) fn node_factor(n: u32, e: u16, edge: &Edge) -> i128
    ensures { result ≡ node_factor n e edge.now }
{
    one_if(edge.from == n) - one_if(edge.to == n)
}

/// 1 where the edge is `turn`, less the most turns of an entry where it is among `into`.
pub(crate) fn turn_factor(l: &Loop, e: u16) -> i128
    ensures { result ≡ turn_factor l.now e }
{
    let entries = one_if(l.is_entered_by(e));
    one_if(e == l.turn) - i128::from(l.most_turns()) * entries
}

fn one_if(holds: bool) -> i128
    ensures { result ≡ one_if holds }
{
    if holds { 1 } else { 0 }
}
