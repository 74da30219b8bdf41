//! Which word or mark of the grammar a token is.

ghost use Rattle.std.specs.Prelude.{◌≡◌, ℕ, List, map};
ghost use Rattle.c_tree.specs.Tokens.Symbols as spec;

use c_tree::{BinOp, Kind, Symbol, Ty};

/// The keywords of the grammar (C11 6.4.1), with their symbols.
const WORDS: [(&[u8], Symbol); 15] = [
    (b"int", Symbol::Int),
    (b"unsigned", Symbol::Unsigned),
    (b"signed", Symbol::Signed),
    (b"void", Symbol::Void),
    (b"if", Symbol::If),
    (b"else", Symbol::Else),
    (b"return", Symbol::Return),
    (b"while", Symbol::While),
    (b"for", Symbol::For),
    (b"do", Symbol::Do),
    (b"break", Symbol::Break),
    (b"continue", Symbol::Continue),
    (b"const", Symbol::Const),
    (b"static", Symbol::Static),
    (b"extern", Symbol::Extern),
];

/// Its punctuators (C11 6.4.6), with their symbols.
const MARKS: [(&[u8], Symbol); 43] = [
    (b"(", Symbol::LeftParen),
    (b")", Symbol::RightParen),
    (b"{", Symbol::LeftBrace),
    (b"}", Symbol::RightBrace),
    (b"[", Symbol::LeftBracket),
    (b"]", Symbol::RightBracket),
    (b";", Symbol::Semicolon),
    (b",", Symbol::Comma),
    (b"=", Symbol::Assign),
    (b"?", Symbol::Question),
    (b":", Symbol::Colon),
    (b"~", Symbol::Tilde),
    (b"!", Symbol::Exclamation),
    (b"++", Symbol::Step(BinOp::Add)),
    (b"--", Symbol::Step(BinOp::Sub)),
    (b"+", Symbol::Operator(BinOp::Add)),
    (b"-", Symbol::Operator(BinOp::Sub)),
    (b"*", Symbol::Operator(BinOp::Mul)),
    (b"/", Symbol::Operator(BinOp::Div)),
    (b"%", Symbol::Operator(BinOp::Rem)),
    (b"<<", Symbol::Operator(BinOp::Shl)),
    (b">>", Symbol::Operator(BinOp::Shr)),
    (b"<", Symbol::Operator(BinOp::Lt)),
    (b">", Symbol::Operator(BinOp::Gt)),
    (b"<=", Symbol::Operator(BinOp::Le)),
    (b">=", Symbol::Operator(BinOp::Ge)),
    (b"==", Symbol::Operator(BinOp::Eq)),
    (b"!=", Symbol::Operator(BinOp::Ne)),
    (b"&", Symbol::Operator(BinOp::And)),
    (b"^", Symbol::Operator(BinOp::Xor)),
    (b"|", Symbol::Operator(BinOp::Or)),
    (b"&&", Symbol::Operator(BinOp::Both)),
    (b"||", Symbol::Operator(BinOp::Either)),
    (b"+=", Symbol::Compound(BinOp::Add)),
    (b"-=", Symbol::Compound(BinOp::Sub)),
    (b"*=", Symbol::Compound(BinOp::Mul)),
    (b"/=", Symbol::Compound(BinOp::Div)),
    (b"%=", Symbol::Compound(BinOp::Rem)),
    (b"<<=", Symbol::Compound(BinOp::Shl)),
    (b">>=", Symbol::Compound(BinOp::Shr)),
    (b"&=", Symbol::Compound(BinOp::And)),
    (b"^=", Symbol::Compound(BinOp::Xor)),
    (b"|=", Symbol::Compound(BinOp::Or)),
];

/// The symbol that stands beside this spelling; `Other` where none does.
fn look_up(table: &[(&[u8], Symbol)], spelling: &[u8]) -> Symbol
    ensures { result ≡ spec.look_up (map (λ entry. (entry.0.now, entry.1)) table.now) spelling.now }
{
    for entry in table {
        if spelling == entry.0 {
            return entry.1;
        }
    }
    Symbol::Other
}

fn word(spelling: &[u8]) -> Symbol
    ensures { result ≡ spec.look_up spec.keyword_symbols spelling.now }
{
    look_up(&WORDS, spelling)
}

fn mark(spelling: &[u8]) -> Symbol
    ensures { result ≡ spec.look_up spec.mark_symbols spelling.now }
{
    look_up(&MARKS, spelling)
}

/// The symbol of a token of this kind with these bytes.
pub fn symbol_of(kind: Kind, spelling: &[u8]) -> Symbol
    ensures { result ≡ spec.symbol_of kind spelling.now }
{
    match kind {
        Kind::Word => word(spelling),
        Kind::Name => Symbol::Name,
        Kind::Number { .. } => Symbol::Number,
        Kind::Mark => mark(spelling),
        Kind::Bound(_) => Symbol::Bound,
    }
}

/// The type and the value of an integer constant; `int` and 0 for any other token.
pub fn constant_of(kind: Kind) -> (Ty, u32)
    ensures ty { result.0 ≡ spec.constant_type kind }
    ensures value { (bytes : List ℕ) → spec.symbol_of kind bytes ≡ Symbol.Number → result.1 ≡ spec.value_of kind }
{
    match kind {
        Kind::Number {
            unsigned: true,
            value,
        } => (Ty::Unsigned, value),
        Kind::Number {
            unsigned: false,
            value,
        } => (Ty::Int, value),
        _ => (Ty::Int, 0),
    }
}

/// The number of a loop bound; 0 for any other token.
pub fn bound_of(kind: Kind) -> u64
    ensures { (bytes : List ℕ) → spec.symbol_of kind bytes ≡ Symbol.Bound → result ≡ spec.value_of kind }
{
    match kind {
        Kind::Bound(number) => number,
        _ => 0,
    }
}
