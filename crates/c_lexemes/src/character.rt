//! Classes of bytes (C11 5.2.1).

ghost use Rattle.std.specs.Prelude.{◌≡◌};
ghost use Rattle.c_tree.specs.Tokens.Characters as class;
ghost use Rattle.c_tree.specs.Tokens.TokenKinds as lexemes;

/// Whether the byte is a space, a tab, a line feed, a vertical tab, a form feed or a carriage return.
#[tactic(auto, unfolding(c_tree::specs::Tokens::Characters::is_blank))]
pub fn is_blank(byte: u8) -> bool
    ensures { result ≡ class.is_blank byte }
{
    matches!(byte, b' ' | 9..=13)
}

/// Whether the byte is a space or a tab.
#[tactic(auto, unfolding(c_tree::specs::Tokens::Characters::is_space_or_tab))]
pub(crate) fn is_space_or_tab(byte: u8) -> bool
    ensures { result ≡ class.is_space_or_tab byte }
{
    matches!(byte, b' ' | b'\t')
}

/// Whether the byte is a carriage return.
#[tactic(auto, unfolding(c_tree::specs::Tokens::Characters::is_carriage_return))]
pub(crate) fn is_carriage_return(byte: u8) -> bool
    ensures { result ≡ class.is_carriage_return byte }
{
    byte == b'\r'
}

/// Whether the byte is a decimal digit.
#[tactic(auto, unfolding(c_tree::specs::Tokens::Characters::is_digit))]
pub(crate) fn is_digit(byte: u8) -> bool
    ensures { result ≡ class.is_digit byte }
{
    byte.is_ascii_digit()
}

/// Whether the byte is a letter or `_`, with which a name may begin.
#[tactic(auto, unfolding(c_tree::specs::Tokens::Characters::is_nondigit))]
pub(crate) fn is_nondigit(byte: u8) -> bool
    ensures { result ≡ class.is_nondigit byte }
{
    byte.is_ascii_alphabetic() || byte == b'_'
}

/// Whether the byte may stand in a name: a letter, `_` or a digit.
#[tactic(auto, unfolding(c_tree::specs::Tokens::Characters::is_name_byte))]
pub(crate) fn is_name_byte(byte: u8) -> bool
    ensures { result ≡ class.is_name_byte byte }
{
    is_nondigit(byte) || is_digit(byte)
}

/// Whether the byte is a letter after which a sign goes on with a number run.
#[tactic(auto, unfolding(c_tree::specs::Tokens::Characters::is_exponent))]
pub(crate) fn is_exponent(byte: u8) -> bool
    ensures { result ≡ class.is_exponent byte }
{
    matches!(byte, b'e' | b'E' | b'p' | b'P')
}

/// Whether the byte is `+` or `-`.
#[tactic(auto, unfolding(c_tree::specs::Tokens::Characters::is_sign))]
pub(crate) fn is_sign(byte: u8) -> bool
    ensures { result ≡ class.is_sign byte }
{
    matches!(byte, b'+' | b'-')
}

/// Whether the byte is the suffix of an unsigned constant.
#[tactic(auto, unfolding(c_tree::specs::Tokens::TokenKinds::is_suffix))]
pub(crate) fn is_suffix(byte: u8) -> bool
    ensures { result ≡ lexemes.is_suffix byte }
{
    matches!(byte, b'u' | b'U')
}
