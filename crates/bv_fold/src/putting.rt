//! Putting what stands for an operator.

ghost use Rattle.std.specs.Prelude.{◌≡◌, ◌<◌, ◌^◌, IfOk, Some, length, slice_get};
ghost use Rattle.bv_term.specs.Stores.{FitsOp};
ghost use Rattle.bv_fold.specs.Folding.{IsExtended};
ghost use Rattle.bv_fold.specs.Standing.{FitsStand, IsPut};
ghost use Rattle.bv_term.specs.declared.op.Op.TheVariants as op;
ghost use Rattle.bv_fold.specs.declared.stand.Stand.TheVariants as stand;

use crate::stand::Stand;
use bv_term::{Op, Terms};
use c_tree::NoMemory;

/// Puts what stands for an operator. `NoMemory` is want of memory, also where the store is full.
pub(crate) fn put_stand(terms: &mut Terms, stand: Stand) -> Result<u32, NoMemory>
    requires { FitsStand terms.old stand }
    ensures kept { IsExtended terms.old terms.new }
    ensures put { IfOk result (λ t. IsPut terms.old terms.new stand t) }
{
    match stand {
        Stand::Term(term) => Ok(term),
        Stand::Constant(word) => put_constant(terms, word),
        Stand::Operator(op) => put_operator(terms, op),
        Stand::Raised(term, count) => put_raised(terms, term, count),
        Stand::Lowered(term, count) => put_lowered(terms, term, count),
        Stand::Masked(term, mask) => put_masked(terms, term, mask),
    }
}

/// Puts an operator. `NoMemory` is want of memory, also where the store is full.
pub(crate) fn put_operator(terms: &mut Terms, op: Op) -> Result<u32, NoMemory>
    requires { FitsOp (length terms.old.inputs) (length terms.old.ops) op }
    ensures kept { IsExtended terms.old terms.new }
    ensures put { IfOk result (λ t. IsPut terms.old terms.new (stand.Operator op) t) }
    ensures found { IfOk result (λ t. slice_get terms.new.ops t ≡ Some op) }
{
    if terms.len() == u32::MAX {
        return Err(NoMemory);
    }
    terms.put(op)
}

/// Puts a constant. `NoMemory` is want of memory, also where the store is full.
pub(crate) fn put_constant(terms: &mut Terms, word: u32) -> Result<u32, NoMemory>
    requires { word < 2 ^ 32 }
    ensures kept { IsExtended terms.old terms.new }
    ensures put { IfOk result (λ t. IsPut terms.old terms.new (stand.Constant word) t) }
    ensures constant { IfOk result (λ t. slice_get terms.new.ops t ≡ Some (op.Const word)) }
{
    put_operator(terms, Op::Const(word))
}

fn put_raised(terms: &mut Terms, term: u32, count: u32) -> Result<u32, NoMemory>
    requires { term < length terms.old.ops }
    ensures kept { IsExtended terms.old terms.new }
    ensures put { IfOk result (λ t. IsPut terms.old terms.new (stand.Raised term count) t) }
{
    let constant = put_constant(terms, count)?;
    put_operator(terms, Op::Shl(term, constant))
}

fn put_lowered(terms: &mut Terms, term: u32, count: u32) -> Result<u32, NoMemory>
    requires { term < length terms.old.ops }
    ensures kept { IsExtended terms.old terms.new }
    ensures put { IfOk result (λ t. IsPut terms.old terms.new (stand.Lowered term count) t) }
{
    let constant = put_constant(terms, count)?;
    put_operator(terms, Op::ShrU(term, constant))
}

fn put_masked(terms: &mut Terms, term: u32, mask: u32) -> Result<u32, NoMemory>
    requires { term < length terms.old.ops }
    ensures kept { IsExtended terms.old terms.new }
    ensures put { IfOk result (λ t. IsPut terms.old terms.new (stand.Masked term mask) t) }
{
    let constant = put_constant(terms, mask)?;
    put_operator(terms, Op::And(term, constant))
}
