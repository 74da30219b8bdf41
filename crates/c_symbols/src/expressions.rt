//! Expressions with their heights. A tree stands in a box, so that it is let go by one call. That heights of parts are
//! asked to be less than 1,000 keeps the heights that are computed far from an overflow.

ghost use Rattle.std.specs.Prelude.{◌≡◌, ◌+◌, ◌<◌, max, IfOk, IfErr};
ghost use Rattle.c_tree.specs.Grammar.Heights as of;

use c_tree::{BinOp, RawExpr, Spot, Ty, UnOp};
use parse_laws::ReadingFault;
use sqlite_items::Boxed;
use std::alloc::Global;

/// An expression, with its height.
#[derive(Drop)]
pub struct MeasuredExpr {
    pub expr: Boxed<RawExpr>,
    pub height: usize,
    ghost exact: { height ≡ of.height expr },
}

/// The expression, whose height this is. `NoMemory` is want of memory.
pub fn measured(alloc: Global, expr: RawExpr, height: usize) -> Result<MeasuredExpr, ReadingFault>
    requires { height ≡ of.height expr }
    ensures low { IfOk result (λ t. t.height ≡ height) }
    ensures made { IfOk result (λ t. t.expr ≡ expr) }
    ensures memory { IfErr result (λ x. x ≡ ReadingFault.NoMemory) }
{
    Ok(MeasuredExpr {
        expr: Boxed::new(alloc, expr)?,
        height,
    })
}

/// A name, of a scalar (C11 6.5.1). Its height is 1. `NoMemory` is want of memory.
#[tactic(auto, using(parse_laws::proofs::Reading::Layers::height_layers))]
pub fn scalar(alloc: Global, spot: Spot) -> Result<MeasuredExpr, ReadingFault>
    ensures low { IfOk result (λ t. t.height ≡ 1) }
    ensures made { IfOk result (λ t. t.expr ≡ RawExpr.Name spot) }
    ensures memory { IfErr result (λ x. x ≡ ReadingFault.NoMemory) }
{
    measured(alloc, RawExpr::Name(spot), 1)
}

/// An element of the array of this name, at the index `a` (C11 6.5.2.1). `NoMemory` is want of memory.
#[tactic(auto, using(parse_laws::proofs::Reading::Layers::height_layers))]
pub fn element(alloc: Global, spot: Spot, a: MeasuredExpr) -> Result<MeasuredExpr, ReadingFault>
    requires { a.height < 1000 }
    ensures low { IfOk result (λ t. t.height ≡ a.height + 1) }
    ensures made { IfOk result (λ t. t.expr ≡ RawExpr.Elem spot a.expr) }
    ensures memory { IfErr result (λ x. x ≡ ReadingFault.NoMemory) }
{
    let height = a.height + 1;
    measured(alloc, RawExpr::Elem(spot, a.expr), height)
}

/// A unary operator at this place, and its operand (C11 6.5.3.3). `NoMemory` is want of memory.
#[tactic(auto, using(parse_laws::proofs::Reading::Layers::height_layers))]
pub fn unary(
    alloc: Global,
    at: u32,
    op: UnOp,
    a: MeasuredExpr,
) -> Result<MeasuredExpr, ReadingFault>
    requires { a.height < 1000 }
    ensures low { IfOk result (λ t. t.height ≡ a.height + 1) }
    ensures made { IfOk result (λ t. t.expr ≡ RawExpr.Un at op a.expr) }
    ensures memory { IfErr result (λ x. x ≡ ReadingFault.NoMemory) }
{
    let height = a.height + 1;
    measured(alloc, RawExpr::Un(at, op, a.expr), height)
}

/// A cast at this place, and its operand (C11 6.5.4). `NoMemory` is want of memory.
#[tactic(auto, using(parse_laws::proofs::Reading::Layers::height_layers))]
pub fn cast(alloc: Global, at: u32, ty: Ty, a: MeasuredExpr) -> Result<MeasuredExpr, ReadingFault>
    requires { a.height < 1000 }
    ensures low { IfOk result (λ t. t.height ≡ a.height + 1) }
    ensures made { IfOk result (λ t. t.expr ≡ RawExpr.Cast at ty a.expr) }
    ensures memory { IfErr result (λ x. x ≡ ReadingFault.NoMemory) }
{
    let height = a.height + 1;
    measured(alloc, RawExpr::Cast(at, ty, a.expr), height)
}

/// An expression in parentheses, the first of which stands at this place (C11 6.5.1). `NoMemory` is want of memory.
#[tactic(auto, using(parse_laws::proofs::Reading::Layers::height_layers))]
pub fn parenthesised(
    alloc: Global,
    at: u32,
    inner: MeasuredExpr,
) -> Result<MeasuredExpr, ReadingFault>
    requires { inner.height < 1000 }
    ensures low { IfOk result (λ t. t.height ≡ inner.height + 1) }
    ensures made { IfOk result (λ t. t.expr ≡ RawExpr.Paren at inner.expr) }
    ensures memory { IfErr result (λ x. x ≡ ReadingFault.NoMemory) }
{
    let height = inner.height + 1;
    measured(alloc, RawExpr::Paren(at, inner.expr), height)
}

/// A binary operator and its two operands (C11 6.5.5 to 6.5.14). `NoMemory` is want of memory.
#[tactic(auto, using(parse_laws::proofs::Reading::Layers::height_layers))]
pub fn binary(
    alloc: Global,
    op: BinOp,
    a: MeasuredExpr,
    b: MeasuredExpr,
) -> Result<MeasuredExpr, ReadingFault>
    requires a { a.height < 1000 }
    requires b { b.height < 1000 }
    ensures low { IfOk result (λ t. t.height ≡ max a.height b.height + 1) }
    ensures made { IfOk result (λ t. t.expr ≡ RawExpr.Bin op a.expr b.expr) }
    ensures memory { IfErr result (λ x. x ≡ ReadingFault.NoMemory) }
{
    let height = a.height.max(b.height) + 1;
    measured(alloc, RawExpr::Bin(op, a.expr, b.expr), height)
}

/// A condition and the two expressions that it chooses from (C11 6.5.15). `NoMemory` is want of memory.
#[tactic(auto, using(parse_laws::proofs::Reading::Layers::height_layers))]
pub fn conditional(
    alloc: Global,
    a: MeasuredExpr,
    b: MeasuredExpr,
    c: MeasuredExpr,
) -> Result<MeasuredExpr, ReadingFault>
    requires a { a.height < 1000 }
    requires b { b.height < 1000 }
    requires c { c.height < 1000 }
    ensures low { IfOk result (λ t. t.height ≡ max a.height (max b.height c.height) + 1) }
    ensures made { IfOk result (λ t. t.expr ≡ RawExpr.Cond a.expr b.expr c.expr) }
    ensures memory { IfErr result (λ x. x ≡ ReadingFault.NoMemory) }
{
    let height = a.height.max(b.height.max(c.height)) + 1;
    measured(alloc, RawExpr::Cond(a.expr, b.expr, c.expr), height)
}
