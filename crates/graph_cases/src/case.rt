//! A line as a case.

/// The parts of a case. Each that is absent is empty.
#[derive(Clone, Copy)]
pub(crate) struct Case<'l> {
    pub(crate) call: &'l str,
    pub(crate) text: &'l str,
    pub(crate) edges: &'l str,
    pub(crate) room: &'l str,
    pub(crate) limits: &'l str,
}

impl<'l> Case<'l> {
    /// The case of these parts.
    pub(crate) fn of(parts: &[&'l str]) -> Case<'l> {
        Case {
            call: part(parts, 0),
            text: part(parts, 1),
            edges: part(parts, 2),
            room: part(parts, 3),
            limits: part(parts, 4),
        }
    }
}

// The part number n, or nothing.
fn part<'l>(parts: &[&'l str], n: usize) -> &'l str {
    parts.get(n).copied().unwrap_or("")
}
