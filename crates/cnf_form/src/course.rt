//! How a line goes with what stands before it.

/// How a line goes with what stands before it.
#[derive(Clone, Copy, Debug, PartialEq, Eq)]
pub(crate) enum Course {
    /// It goes on as the form has it.
    Fits,
    /// It does not end as the form has it, but has no line feed, and further bytes can make such a line of it.
    MayGrow,
    /// No further bytes can.
    Breaks,
}
