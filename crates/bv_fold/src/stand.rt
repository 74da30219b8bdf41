//! What stands for an operator.

use bv_term::Op;

/// What has the word of an operator at every input.
#[derive(Clone, Copy)]
pub(crate) enum Stand {
    /// A term that is there.
    Term(u32),
    Constant(u32),
    /// An operator over terms that are there.
    Operator(Op),
    /// The term shifted to the left by a constant count.
    Raised(u32, u32),
    /// The term shifted to the right by a constant count; zeros come in.
    Lowered(u32, u32),
    /// The bits that the term and a constant share.
    Masked(u32, u32),
}
