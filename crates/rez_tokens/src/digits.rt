//! Bytes and digits.

ghost use Rattle.std.specs.Prelude.{◌≡◌};
ghost use Rattle.rez_tokens.specs.Digits as spec;

use crate::mode::Radix;

/// Reports whether a byte ends a line.
pub(crate) fn ends_line(byte: u8) -> bool
    ensures { result ≡ spec.ends_line byte }
{
    byte == b'\n' || byte == b'\r'
}

/// Reports whether a byte is a blank, or ends a line.
pub(crate) fn is_blank(byte: u8) -> bool
    ensures { result ≡ spec.is_blank byte }
{
    byte == b' ' || byte == b'\t' || byte == b'\n' || byte == b'\r'
}

pub(crate) fn is_digit(byte: u8) -> bool
    ensures { result ≡ spec.is_digit byte }
{
    b'0' <= byte && byte <= b'9'
}

/// Reports whether a byte is a letter, or `_`.
pub(crate) fn is_letter(byte: u8) -> bool
    ensures { result ≡ spec.is_letter byte }
{
    (b'A' <= byte && byte <= b'Z') || (b'a' <= byte && byte <= b'z') || byte == b'_'
}

/// Returns the value of a hexadecimal digit, in upper or lower case.
pub(crate) fn hex_value(byte: u8) -> Option<u8>
    ensures { result ≡ spec.hex_value byte }
{
    match byte {
        b'0'..=b'9' => Some(byte - b'0'),
        b'A'..=b'F' => Some(byte - b'A' + 10),
        b'a'..=b'f' => Some(byte - b'a' + 10),
        _ => None,
    }
}

/// Returns the byte of two hexadecimal digits.
pub(crate) fn byte_of(high: u8, low: u8) -> u8
    ensures { result ≡ spec.byte_of high low }
{
    ((16 * high as u16 + low as u16) % 256) as u8
}

impl Radix {
    /// Returns the value of a digit.
    pub fn value(self, byte: u8) -> Option<u8>
        ensures { result ≡ spec.digit_in self byte }
    {
        match hex_value(byte) {
            Some(digit) if digit < self.base() => Some(digit),
            _ => None,
        }
    }
}
