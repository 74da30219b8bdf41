//! Integer constants (C11 6.4.4.1).

ghost use Rattle.std.specs.Prelude.{◌≡◌, ◌≤◌, ◌&&◌, ◌^◌, nat_lt, length, IsTrue, if◌then◌else◌};
ghost use Rattle.std.specs.Str.Parse.{digits_value};
ghost use Rattle.c_tree.specs.Tokens.TokenKinds as lexemes;

use crate::character::is_suffix;
use c_tree::Kind;

/// The constant that a number run is: of `int` or `unsigned`, with its value.
#[tactic(auto, unfolding(c_tree::specs::Tokens::TokenKinds::constant_of, c_tree::specs::Tokens::TokenKinds::is_suffixed, c_tree::specs::Tokens::TokenKinds::without_suffix))]
pub(crate) fn constant_of(run: &[u8]) -> Option<Kind>
    ensures { result ≡ lexemes.constant_of run.now }
{
    match run {
        [bytes @ .., last] if is_suffix(*last) => constant_in(true, bytes),
        _ => constant_in(false, run),
    }
}

fn constant_in(suffixed: bool, bytes: &[u8]) -> Option<Kind>
    ensures { result ≡ lexemes.constant_in suffixed bytes.now }
{
    let base = base_of(bytes);
    let value = value_of(base, digits_of(bytes))?;
    typed(suffixed, base, value)
}

#[tactic(auto, unfolding(c_tree::specs::Tokens::TokenKinds::is_hexadecimal))]
fn is_hexadecimal(bytes: &[u8]) -> bool
    ensures long { IsTrue result → 2 ≤ length bytes.now }
    ensures value { result ≡ lexemes.is_hexadecimal bytes.now }
{
    bytes.starts_with(b"0x") || bytes.starts_with(b"0X")
}

#[tactic(auto, unfolding(c_tree::specs::Tokens::TokenKinds::base_of))]
fn base_of(bytes: &[u8]) -> u32
    ensures value { result ≡ lexemes.base_of bytes.now }
    ensures low { 8 ≤ result }
    ensures high { result ≤ 16 }
{
    if is_hexadecimal(bytes) {
        16
    } else if bytes.starts_with(b"0") {
        8
    } else {
        10
    }
}

#[tactic(auto, unfolding(c_tree::specs::Tokens::TokenKinds::digits_of))]
fn digits_of(bytes: &[u8]) -> &[u8]
    ensures { result.now ≡ lexemes.digits_of bytes.now }
{
    if is_hexadecimal(bytes) {
        &bytes[2..]
    } else {
        bytes
    }
}

/// The value of a numeral, if 64 bits hold it.
#[tactic(auto, unfolding(c_tree::specs::Tokens::TokenKinds::is_numeral))]
pub(crate) fn value_of(base: u32, digits: &[u8]) -> Option<u64>
    requires low { 8 ≤ base }
    requires high { base ≤ 16 }
    ensures { result
        ≡ (if lexemes.is_numeral base digits.now && nat_lt (digits_value base digits.now) (2 ^ 64)
        then Some (digits_value base digits.now) else None) }
{
    if digits.is_empty() {
        return None;
    }
    let mut value: u64 = 0;
    for byte in digits {
        let digit = char::from(*byte).to_digit(base)?;
        let scaled = value.checked_mul(u64::from(base))?;
        value = scaled.checked_add(u64::from(digit))?;
    }
    Some(value)
}

#[tactic(auto, unfolding(c_tree::specs::Tokens::TokenKinds::number_kind))]
fn typed(suffixed: bool, base: u32, value: u64) -> Option<Kind>
    ensures { result ≡ lexemes.number_kind suffixed base value }
{
    if !suffixed && value < 1 << 31 {
        Some(Kind::Number {
            unsigned: false,
            value: value as u32,
        })
    } else if (suffixed || base != 10) && value < 1 << 32 {
        Some(Kind::Number {
            unsigned: true,
            value: value as u32,
        })
    } else {
        None
    }
}
