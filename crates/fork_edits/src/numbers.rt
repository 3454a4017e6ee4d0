//! Numbers as people write them.

ghost use Rattle.std.specs.Prelude.{◌≡◌, ◌≤◌, IfSome, option_map, pos};
ghost use Rattle.fork_edits.specs.Numbers.{number_within, below_zero, id_read};

use crate::attributes::is_digit;

/// Returns the number that decimal digits stand for, if there are any and it is within a limit.
pub(crate) fn read_within(text: &[u8], limit: u16) -> Option<u16>
    ensures value { result ≡ number_within limit text.now }
    ensures within { IfSome result (λ n. n ≤ limit) }
{
    if text.is_empty() {
        return None;
    }
    let mut number: u16 = 0;
    for digit in text {
        if !is_digit(*digit) {
            return None;
        }
        let longer = 10 * u32::from(number) + u32::from(*digit - b'0');
        if longer > u32::from(limit) {
            return None;
        }
        number = longer as u16;
    }
    Some(number)
}

/// Returns the ID, from 0 on, that decimal digits stand for.
fn read_above(digits: &[u8]) -> Option<i16>
    ensures { result ≡ option_map pos (number_within 32767 digits.now) }
{
    let Some(number) = read_within(digits, 32_767) else {
        return None;
    };
    Some(number as i16)
}

/// Returns the ID below 0 whose digits after the minus these are.
fn read_below(digits: &[u8]) -> Option<i16>
    ensures { result ≡ below_zero (number_within 32768 digits.now) }
{
    let Some(number) = read_within(digits, 32_768) else {
        return None;
    };
    Some((-(number as i32)) as i16)
}

/// Returns the ID that a text stands for: a number from -32768 to 32767 in decimal.
pub(crate) fn read_id(text: &[u8]) -> Option<i16>
    ensures { result ≡ id_read text.now }
{
    match text {
        [b'-', digits @ ..] => read_below(digits),
        digits => read_above(digits),
    }
}
