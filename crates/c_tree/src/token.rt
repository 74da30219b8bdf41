//! Tokens (C11 6.4).

/// What a token is. A word or a mark is told from others by its bytes in the text.
#[derive(Clone, Copy, Debug, PartialEq, Eq)]
pub enum Kind {
    /// A keyword of C11 (6.4.1).
    Word,
    /// An identifier (6.4.2.1).
    Name,
    /// An integer constant (6.4.4.1), and whether its type is `unsigned`.
    Number { unsigned: bool, value: u32 },
    /// A punctuator (6.4.6).
    Mark,
    /// A line `#pragma loopbound N`, and its N.
    Bound(u64),
}

/// A token of a text: the bytes of the text from `from` up to, and without, `to`.
#[derive(Clone, Copy, Debug, PartialEq, Eq)]
pub struct Token {
    pub kind: Kind,
    pub from: u32,
    pub to: u32,
}
