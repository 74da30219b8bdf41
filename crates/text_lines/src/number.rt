//! Numbers in decimal, as they are written: without a sign or a leading zero.

ghost use Rattle.text_lines.specs.Numbers.{IsNumberOf};

use itoa::{Buffer, Integer};

/// The number, below 2^128, that these bytes write; `None` exactly where they write none.
pub fn number_of(bytes: &[u8]) -> Option<u128>
    ensures { IsNumberOf bytes.now result }
{
    let Ok(text) = str::from_utf8(bytes) else {
        return None;
    };
    let Ok(number) = text.parse::<u128>() else {
        return None;
    };
    let mut buffer = Buffer::new();
    if buffer.format(number).as_bytes() == bytes {
        Some(number)
    } else {
        None
    }
}
