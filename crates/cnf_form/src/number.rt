//! Numbers in decimal, as they are written: without a leading zero.

ghost use Rattle.std.specs.Prelude.{◌≤◌, ◌^◌};
ghost use Rattle.cnf_form.specs.Numbers.{IsNumberOf, IsIntegerOf};

use crate::cnf::MOST;

/// The number, at most `limit`, that these bytes write.
pub(crate) fn number_of(bytes: &[u8], limit: u64) -> Option<u64>
    requires { limit ≤ 2 ^ 32 }
    ensures { IsNumberOf limit bytes.now result }
{
    let number = text_lines::number_of(bytes)?;
    if number > u128::from(limit) {
        return None;
    }
    Some(number as u64)
}

/// The integer, of magnitude 2,147,483,647 at most, that these bytes write.
pub(crate) fn integer_of(bytes: &[u8]) -> Option<i32>
    ensures { IsIntegerOf bytes.now result }
{
    match bytes {
        [b'-', digits @ ..] => {
            let number = number_of(digits, u64::from(MOST))?;
            if number == 0 {
                return None;
            }
            Some(-(number as i32))
        }
        _ => {
            let number = number_of(bytes, u64::from(MOST))?;
            Some(number as i32)
        }
    }
}
