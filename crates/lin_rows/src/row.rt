//! Rows over the counts of edges.

ghost use Rattle.std.specs.Prelude.{◌≡◌, ◌<◌, ◌↔◌, IsTrue, IsSome, IfSome, All, Any};
ghost use Rattle.lin_rows.specs.Names.{NamesBelow, NamesOnce};

use sqlite_items::Items;

/// How the left side of a row is compared with its right side.
#[derive(Clone, Copy, Debug, PartialEq, Eq)]
pub enum RowKind {
    /// The left side is at most the right side.
    AtMost,
    /// Both sides are equal.
    Equal,
}

/// A row: the sum of factor times count over its terms, compared with `right`. A term is an edge and its factor.
#[derive(Debug, Drop)]
pub struct Row {
    pub terms: Items<(u16, i128)>,
    pub kind: RowKind,
    pub right: i128,
}

impl Row {
    /// The row of these parts.
    pub fn new(terms: Vec<(u16, i128)>, kind: RowKind, right: i128) -> Row
        ensures terms { result.terms ≡ terms.items }
        ensures kind { result.kind ≡ kind }
        ensures right { result.right ≡ right }
    {
        Row {
            terms: Items::from_vec(terms),
            kind,
            right,
        }
    }

    /// The terms: each an edge and its factor.
    pub fn terms(&self) -> &[(u16, i128)]
        ensures { result.now ≡ self.now.terms }
    {
        self.terms.as_slice()
    }
}

/// Rows over the edges from 0 up to, and without, `edges`. Each term names one of these, and no row names an edge
/// twice.
#[derive(Debug, Drop)]
pub struct Rows {
    pub rows: Items<Row>,
    pub edges: u32,
    ghost below: { All (λ row. NamesBelow edges row.terms) rows },
    ghost once: { All (λ row. NamesOnce row.terms) rows },
}

impl Rows {
    /// These rows over so many edges, or `None` exactly where a term names none of them or a row names one twice.
    pub fn new(rows: Vec<Row>, edges: u32) -> Option<Rows>
        ensures made { IsSome result ↔ (All (λ row. NamesBelow edges row.terms) rows.items
            × All (λ row. NamesOnce row.terms) rows.items) }
        ensures rows { IfSome result (λ made. made.rows ≡ rows.items) }
        ensures edges { IfSome result (λ made. made.edges ≡ edges) }
    {
        let rows = Items::from_vec(rows);
        if names_fit(rows.as_slice(), edges) {
            Some(Rows { rows, edges })
        } else {
            None
        }
    }

    /// The rows, in order.
    pub fn rows(&self) -> &[Row]
        ensures { result.now ≡ self.now.rows }
    {
        self.rows.as_slice()
    }
}

// Whether each row names only edges below `edges`, and none twice.
fn names_fit(rows: &[Row], edges: u32) -> bool
    ensures { IsTrue result ↔ (All (λ row. NamesBelow edges row.terms) rows.now × All (λ row. NamesOnce row.terms)
        rows.now) }
{
    for row in rows {
        if !names_below(row.terms(), edges) || !names_once(row.terms()) {
            return false;
        }
    }
    true
}

// Whether each term names an edge below `edges`.
fn names_below(terms: &[(u16, i128)], edges: u32) -> bool
    ensures { IsTrue result ↔ NamesBelow edges terms.now }
{
    terms.iter().all(|term| u32::from(term.0) < edges)
}

// Whether no edge is named by two of the terms.
fn names_once(terms: &[(u16, i128)]) -> bool
    ensures { IsTrue result ↔ NamesOnce terms.now }
{
    for (i, term) in terms.iter().enumerate() {
        if is_named(&terms[..i], term.0) {
            return false;
        }
    }
    true
}

// Whether one of the terms names the edge.
fn is_named(terms: &[(u16, i128)], edge: u16) -> bool
    ensures { IsTrue result ↔ Any (λ term. term.0 ≡ edge) terms.now }
{
    terms.iter().any(|term| term.0 == edge)
}
