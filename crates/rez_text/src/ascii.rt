//! Bytes and digits.

ghost use Rattle.std.specs.Prelude.{◌≡◌};
ghost use Rattle.rez_text.specs.Remarks.{is_blank as is_blank_of, hex_value as hex_value_of};
ghost use Rattle.rez_text.specs.Remarks.{byte_of as byte_of_digits};
ghost use Rattle.rez_text.specs.Ascii.{ends_line as ends_line_of, is_digit as is_digit_of};
ghost use Rattle.rez_text.specs.Ascii.{is_letter as is_letter_of, begins_word as begins_word_of};
ghost use Rattle.rez_text.specs.Ascii.{digit_in};

use crate::mode::Radix;

/// Reports whether a byte is a blank, or ends a line.
pub(crate) fn is_blank(byte: u8) -> bool
    ensures { result ≡ is_blank_of byte }
{
    byte == b' ' || byte == b'\t' || byte == b'\n' || byte == b'\r'
}

/// Returns the value of a hexadecimal digit, in upper or lower case.
pub(crate) fn hex_value(byte: u8) -> Option<u8>
    ensures { result ≡ hex_value_of byte }
{
    match byte {
        b'0'..=b'9' => Some(byte - b'0'),
        b'A'..=b'F' => Some(byte - b'A' + 10),
        b'a'..=b'f' => Some(byte - b'a' + 10),
        _ => None,
    }
}

/// Returns the byte of two digits.
pub(crate) fn byte_of(high: u8, low: u8) -> u8
    ensures { result ≡ byte_of_digits high low }
{
    ((16 * high as u16 + low as u16) % 256) as u8
}

pub(crate) fn ends_line(byte: u8) -> bool
    ensures { result ≡ ends_line_of byte }
{
    byte == b'\n' || byte == b'\r'
}

pub(crate) fn is_digit(byte: u8) -> bool
    ensures { result ≡ is_digit_of byte }
{
    b'0' <= byte && byte <= b'9'
}

pub(crate) fn is_letter(byte: u8) -> bool
    ensures { result ≡ is_letter_of byte }
{
    (b'A' <= byte && byte <= b'Z') || (b'a' <= byte && byte <= b'z') || byte == b'_'
}

/// Reports whether a byte is a letter, or the `#` of a directive.
pub(crate) fn begins_word(byte: u8) -> bool
    ensures { result ≡ begins_word_of byte }
{
    is_letter(byte) || byte == b'#'
}

impl Radix {
    /// Returns the value of a digit.
    pub fn value(self, byte: u8) -> Option<u8>
        ensures { result ≡ digit_in self byte }
    {
        match hex_value(byte) {
            Some(digit) if digit < self.base() => Some(digit),
            _ => None,
        }
    }
}
