//! How distances and sizes are written.

ghost use Rattle.std.specs.Prelude.{◌≡◌, ◌<◌, ◌++◌, OnOk};
ghost use Rattle.zone_drawing.specs.Digits.{digit_at, hex_digits, size_text};
ghost use Rattle.zone_drawing.specs.Text.{right};

use crate::style::{Style, push_number, push_right};
use mac_words::upper_digit;
use std::alloc::AllocError;

/// How distances and sizes are written.
#[derive(Clone, Copy, Debug, PartialEq, Eq)]
pub enum Digits {
    Decimal,
    /// Eight digits each.
    Hexadecimal,
}

/// Returns the hexadecimal digit of a number that counts so many.
#[tactic(auto, unfolding(crate::specs::Digits::digit_at))]
fn digit_at(number: u128, unit: u128) -> u8
    requires { 0 < unit }
    ensures { result ≡ digit_at number unit }
{
    upper_digit((number / unit % 16) as u8)
}

/// Returns the last eight hexadecimal digits of a number.
#[tactic(auto, unfolding(crate::specs::Digits::hex_digits))]
pub fn hex_digits(number: u128) -> [u8; 8]
    ensures { result ≡ hex_digits number }
{
    [
        digit_at(number, 0x10000000),
        digit_at(number, 0x1000000),
        digit_at(number, 0x100000),
        digit_at(number, 0x10000),
        digit_at(number, 0x1000),
        digit_at(number, 0x100),
        digit_at(number, 0x10),
        digit_at(number, 1),
    ]
}

/// Appends a distance or a size, and in a column the blanks before it.
pub fn push_size(
    text: &mut Vec<u8>,
    digits: Digits,
    style: Style,
    width: usize,
    number: u128,
) -> Result<(), AllocError>
    ensures { OnOk result (text.new.items
        ≡ text.old.items ++ right style width (size_text digits number)) }
{
    match digits {
        Digits::Decimal => push_number(text, style, width, number),
        Digits::Hexadecimal => push_right(text, style, width, &hex_digits(number)),
    }
}
