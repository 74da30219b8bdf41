//! The keywords and the marks.

ghost use Rattle.std.specs.Prelude.{◌≡◌, map};
ghost use Rattle.c_tree.specs.Tokens.TokenKinds as lexemes;
ghost use Rattle.c_lexemes.specs.Marks as spec;

/// The keywords (C11 6.4.1).
const KEYWORDS: [&[u8]; 44] = [
    b"auto",
    b"break",
    b"case",
    b"char",
    b"const",
    b"continue",
    b"default",
    b"do",
    b"double",
    b"else",
    b"enum",
    b"extern",
    b"float",
    b"for",
    b"goto",
    b"if",
    b"inline",
    b"int",
    b"long",
    b"register",
    b"restrict",
    b"return",
    b"short",
    b"signed",
    b"sizeof",
    b"static",
    b"struct",
    b"switch",
    b"typedef",
    b"union",
    b"unsigned",
    b"void",
    b"volatile",
    b"while",
    b"_Alignas",
    b"_Alignof",
    b"_Atomic",
    b"_Bool",
    b"_Complex",
    b"_Generic",
    b"_Imaginary",
    b"_Noreturn",
    b"_Static_assert",
    b"_Thread_local",
];

/// The marks (C11 6.4.6), a longer one before a shorter one.
const MARKS: [&[u8]; 43] = [
    b"<<=", b">>=", b"++", b"--", b"<<", b">>", b"<=", b">=", b"==", b"!=", b"&&", b"||", b"+=",
    b"-=", b"*=", b"/=", b"%=", b"&=", b"|=", b"^=", b"(", b")", b"[", b"]", b"{", b"}", b";",
    b",", b"=", b"+", b"-", b"*", b"/", b"%", b"&", b"|", b"^", b"~", b"!", b"<", b">", b"?", b":",
];

fn is_among(table: &[&[u8]], bytes: &[u8]) -> bool
    ensures { result ≡ lexemes.is_among (map (λ entry. entry.now) table.now) bytes.now }
{
    for entry in table {
        if *entry == bytes {
            return true;
        }
    }
    false
}

/// Whether the bytes are a keyword.
#[tactic(auto, unfolding(c_tree::specs::Tokens::TokenKinds::keywords))]
pub(crate) fn is_keyword(bytes: &[u8]) -> bool
    ensures { result ≡ lexemes.is_among lexemes.keywords bytes.now }
{
    is_among(&KEYWORDS, bytes)
}

/// The length of the mark that stands first; of several the longest.
#[tactic(auto, unfolding(c_tree::specs::Tokens::TokenKinds::marks, crate::specs::Marks::mark_length))]
pub(crate) fn mark_length(here: &[u8]) -> Option<usize>
    ensures { result ≡ spec.mark_length here.now }
{
    first_length(&MARKS, here)
}

#[tactic(auto, unfolding(crate::specs::Marks::first_length))]
fn first_length(table: &[&[u8]], here: &[u8]) -> Option<usize>
    ensures { result ≡ spec.first_length (map (λ entry. entry.now) table.now) here.now }
{
    for entry in table {
        if here.starts_with(entry) {
            return Some(entry.len());
        }
    }
    None
}
