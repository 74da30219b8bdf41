//! Which terms stand below others.

ghost use Rattle.std.specs.Prelude.{◌≡◌, ◌<◌, ◌≤◌, ℕ, IfOk, length, slice_get, Some};
ghost use Rattle.bv_term.specs.declared.op.Op.{Op as SeenOp};
ghost use Rattle.bv_fold.specs.Folding.{operands};
ghost use Rattle.bv_fold.specs.Gathered.{AreClosedFrom, AreMarked, AreMoreMarks, IsMarked, marked_with};
ghost use Rattle.bv_fold.specs.Steps.{AreBelow};

use bv_term::{Op, Terms};
use c_tree::NoMemory;
use std::alloc::Global;

/// One mark a term: on the wanted terms, and on all that stand below these.
pub(crate) fn marks_below(
    alloc: Global,
    terms: &Terms,
    wanted: &[u32],
) -> Result<Vec<bool>, NoMemory>
    requires { AreBelow (length terms.now.ops) wanted.now }
    ensures count { IfOk result (λ marks. length marks.items ≡ length terms.now.ops) }
    ensures wanted { IfOk result (λ marks. AreMarked marks.items wanted.now) }
    ensures closed { IfOk result (λ marks. AreClosedFrom terms.now.ops 0 marks.items) }
{
    let mut marks = vec![in alloc; false; terms.len() as usize]?;
    mark_all(&mut marks, wanted);
    close(terms, &mut marks);
    Ok(marks)
}

// Marks these terms.
fn mark_all(marks: &mut [bool], wanted: &[u32])
    requires { AreBelow (length marks.old) wanted.now }
    ensures { marks.new ≡ marked_with marks.old wanted.now }
{
    for term in wanted {
        marks[*term as usize] = true;
    }
}

// Marks all that stands below marked terms: their operands, from the last term down.
fn close(terms: &Terms, marks: &mut [bool])
    requires { length marks.old ≡ length terms.now.ops }
    ensures more { AreMoreMarks marks.old marks.new }
    ensures closed { AreClosedFrom terms.now.ops 0 marks.new }
{
    let count = terms.len();
    for done in 0..count {
        mark_below(terms, marks, count - 1 - done);
    }
}

// Marks the operands of a term that is marked.
fn mark_below(terms: &Terms, marks: &mut [bool], term: u32)
    requires count { length marks.old ≡ length terms.now.ops }
    requires there { term < length terms.now.ops }
    ensures more { AreMoreMarks marks.old marks.new }
    ensures below { (o : SeenOp) → slice_get terms.now.ops term ≡ Some o → IsMarked marks.old term
        → AreMarked marks.new (operands o) }
    ensures only { (t : ℕ) → term ≤ t → IsMarked marks.new t → IsMarked marks.old t }
{
    // Each operator of the store fits.
    terms.len();
    if marks[term as usize] {
        mark_operands(marks, *terms.op(term));
    }
}

fn mark_operands(marks: &mut [bool], op: Op)
    requires { AreBelow (length marks.old) (operands op) }
    ensures { marks.new ≡ marked_with marks.old (operands op) }
{
    match op {
        Op::Input(_) | Op::Const(_) => {}
        Op::Not(a) | Op::Neg(a) => mark_all(marks, &[a]),
        Op::Add(a, b)
        | Op::Sub(a, b)
        | Op::Mul(a, b)
        | Op::DivU(a, b)
        | Op::RemU(a, b)
        | Op::DivS(a, b)
        | Op::RemS(a, b)
        | Op::Shl(a, b)
        | Op::ShrU(a, b)
        | Op::ShrS(a, b)
        | Op::And(a, b)
        | Op::Or(a, b)
        | Op::Xor(a, b)
        | Op::Eq(a, b)
        | Op::LtU(a, b)
        | Op::LtS(a, b) => mark_all(marks, &[a, b]),
        Op::Ite(c, a, b) => mark_all(marks, &[c, a, b]),
    }
}
