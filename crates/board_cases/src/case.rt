//! A line as a case.

/// The parts of a case. Each that is absent is empty.
#[derive(Clone, Copy)]
pub(crate) struct Case<'l> {
    pub(crate) call: &'l str,
    pub(crate) text: &'l str,
    pub(crate) table: &'l str,
    pub(crate) turns: &'l str,
    pub(crate) first: &'l str,
    pub(crate) edges: &'l str,
    pub(crate) second: &'l str,
}

impl<'l> Case<'l> {
    /// The case of these parts.
    pub(crate) fn of(parts: &[&'l str]) -> Case<'l> {
        Case {
            call: part(parts, 0),
            text: part(parts, 1),
            table: part(parts, 2),
            turns: part(parts, 3),
            first: part(parts, 4),
            edges: part(parts, 5),
            second: part(parts, 6),
        }
    }
}

// The part number n, or nothing.
fn part<'l>(parts: &[&'l str], n: usize) -> &'l str {
    parts.get(n).copied().unwrap_or("")
}
