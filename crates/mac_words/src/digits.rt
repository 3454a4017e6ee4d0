//! Hexadecimal digits of numbers below 16, as bytes of ASCII.

ghost use Rattle.std.specs.Prelude.{◌≡◌, ◌<◌};
ghost use Rattle.mac_words.specs.Digits.{lower_digit, upper_digit};

/// Returns the hexadecimal digit of a number, in lower case.
pub fn lower_digit(value: u8) -> u8
    requires { value < 16 }
    ensures { result ≡ lower_digit value }
{
    if value < 10 {
        b'0' + value
    } else {
        b'a' - 10 + value
    }
}

/// Returns the hexadecimal digit of a number, in upper case.
pub fn upper_digit(value: u8) -> u8
    requires { value < 16 }
    ensures { result ≡ upper_digit value }
{
    if value < 10 {
        b'0' + value
    } else {
        b'A' - 10 + value
    }
}
