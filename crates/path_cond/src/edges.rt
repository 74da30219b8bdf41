//! What the edges of a list do, one after the other.

ghost use Rattle.std.specs.Prelude.{◌≡◌, ◌<◌, true, length, slice_get, IfOk};
ghost use Rattle.flow_laws.specs.Graphs.{graph, edges};
ghost use Rattle.flow_laws.specs.Paths.{follows};
ghost use Rattle.flow_laws.specs.Sites.{Give};
ghost use Rattle.flow_laws.specs.declared.graph.Way.TheVariants as way;
ghost use Rattle.cond_laws.specs.Conditions.{AllBelow};
ghost use Rattle.cond_laws.specs.Fits.{FitMemory};
ghost use Rattle.cond_laws.specs.Sizes.{IsSmallContent};
ghost use Rattle.cond_laws.specs.TermPaths as spec;
ghost use Rattle.cond_laws.specs.TermStatements.{effect_with};
ghost use Rattle.node_contents.specs.Contents.{content_of};
ghost use Rattle.path_cond.specs.Memories.{memory_of, FitMove};
ghost use Rattle.term_steps.specs.Gives.{Gives};

use crate::calls::{enter, land};
use crate::memory::Memory;
use bv_term::{Op, Terms};
use c_tree::{Expr, NoMemory};
use cond_laws::Returned;
use flow_graph::{Plan, Way};
use node_contents::{Content, Contents};
use sqlite_items::Items;
use std::alloc::Global;
use term_effects::{all_simple, nowhere};
use term_steps::{expr, put};

// A condition holds.
fn holds(
    alloc: Global,
    terms: &mut Terms,
    content: Content,
    memory: &Memory,
) -> Result<Items<u32>, NoMemory>
    requires { FitMemory (length terms.old.ops) (memory_of memory.now) }
    ensures { IfOk result (λ cs. Gives FitMove (spec.content_effect (content_of content.entry) way.True
        (memory_of memory.now))
        terms.old terms.new (effect_with (memory_of memory.now) cs)) }
{
    let Content::Test(condition) = content else {
        return nowhere(alloc, terms);
    };
    let value = expr(alloc, terms, condition, &memory.store)?;
    let mut conditions = value.conditions;
    conditions.push(value.term)?;
    Ok(conditions)
}

// A condition does not hold.
fn fails(
    alloc: Global,
    terms: &mut Terms,
    content: Content,
    memory: &Memory,
) -> Result<Items<u32>, NoMemory>
    requires { FitMemory (length terms.old.ops) (memory_of memory.now) }
    ensures { IfOk result (λ cs. Gives FitMove (spec.content_effect (content_of content.entry) way.False
        (memory_of memory.now))
        terms.old terms.new (effect_with (memory_of memory.now) cs)) }
{
    let Content::Test(condition) = content else {
        return nowhere(alloc, terms);
    };
    let value = expr(alloc, terms, condition, &memory.store)?;
    let zero = put(terms, Op::Const(0))?;
    let is_zero = put(terms, Op::Eq(value.term, zero))?;
    let mut conditions = value.conditions;
    conditions.push(is_zero)?;
    Ok(conditions)
}

// A `return` (C11 6.8.6.4).
fn give_back(
    alloc: Global,
    terms: &mut Terms,
    value: &Option<Expr>,
    memory: &mut Memory,
) -> Result<Items<u32>, NoMemory>
    requires { FitMemory (length terms.old.ops) (memory_of memory.old) }
    ensures { IfOk result (λ cs. Gives FitMove (spec.content_effect (Give value.now) way.Next (memory_of memory.old))
        terms.old terms.new (effect_with (memory_of memory.new) cs)) }
{
    let Some(value) = value else {
        memory.result = None;
        return Ok(Items::new(alloc));
    };
    let value = expr(alloc, terms, value, &memory.store)?;
    memory.result = Some(Returned {
        ty: value.ty,
        term: value.term,
    });
    Ok(value.conditions)
}

// What a node does that is left by its one end.
fn run(
    alloc: Global,
    terms: &mut Terms,
    content: Content,
    memory: &mut Memory,
) -> Result<Items<u32>, NoMemory>
    requires small { IsSmallContent (content_of content) }
    requires there { FitMemory (length terms.old.ops) (memory_of memory.old) }
    ensures { IfOk result (λ cs. Gives FitMove (spec.content_effect (content_of content.entry) way.Next
        (memory_of memory.old))
        terms.old terms.new (effect_with (memory_of memory.new) cs)) }
{
    match content {
        Content::Entry => Ok(Items::new(alloc)),
        Content::Jump => Ok(Items::new(alloc)),
        Content::Simple(statements) => all_simple(alloc, terms, statements, &mut memory.store),
        Content::Give(value) => give_back(alloc, terms, value, memory),
        Content::Enter(target, locals, args) => enter(alloc, terms, target, locals, args, memory),
        Content::Land(target, ty, _) => land(alloc, terms, target, ty, memory),
        Content::Exit => nowhere(alloc, terms),
        Content::Test(_) => nowhere(alloc, terms),
        Content::Missing => nowhere(alloc, terms),
    }
}

// What a node does where it is left by this end: its statements, or its condition.
fn act(
    alloc: Global,
    terms: &mut Terms,
    content: Content,
    way: Way,
    memory: &mut Memory,
) -> Result<Items<u32>, NoMemory>
    requires small { IsSmallContent (content_of content) }
    requires there { FitMemory (length terms.old.ops) (memory_of memory.old) }
    ensures { IfOk result (λ cs. Gives FitMove (spec.content_effect (content_of content.entry) way
        (memory_of memory.old))
        terms.old terms.new (effect_with (memory_of memory.new) cs)) }
{
    match way {
        Way::Next => run(alloc, terms, content, memory),
        Way::True => holds(alloc, terms, content, memory),
        Way::False => fails(alloc, terms, content, memory),
    }
}

// What an edge does.
fn pass(
    alloc: Global,
    terms: &mut Terms,
    plan: &Plan,
    contents: &Contents,
    edge: u16,
    memory: &mut Memory,
) -> Result<Items<u32>, NoMemory>
    requires same { contents.now ≡ plan.now }
    requires edge { edge < length (edges (graph plan.now.program)) }
    requires there { FitMemory (length terms.old.ops) (memory_of memory.old) }
    ensures { IfOk result (λ cs. Gives FitMove
        (spec.pass (graph plan.now.program) (slice_get (edges (graph plan.now.program)) edge) (memory_of memory.old))
        terms.old terms.new (effect_with (memory_of memory.new) cs)) }
{
    // The program is well-formed.
    plan.program();
    let edge = plan.edge(edge);
    act(alloc, terms, contents.of(edge.from), edge.way, memory)
}

/// The conditions of one edge after the other.
pub(crate) fn walk(
    alloc: Global,
    terms: &mut Terms,
    plan: &Plan,
    contents: &Contents,
    list: &[u16],
    memory: &mut Memory,
) -> Result<Items<u32>, NoMemory>
    requires same { contents.now ≡ plan.now }
    requires contiguous { follows (edges (graph plan.now.program)) list.now ≡ true }
    requires there { FitMemory (length terms.old.ops) (memory_of memory.old) }
    ensures { IfOk result (λ cs. Gives AllBelow (spec.walk (graph plan.now.program) list.now (memory_of memory.old))
        terms.old terms.new cs) }
{
    let mut conditions = Items::new(alloc);
    for edge in list {
        let more = pass(alloc, terms, plan, contents, *edge, memory)?;
        conditions.append(more)?;
    }
    Ok(conditions)
}
