//! The lines of a script.

ghost use Rattle.std.specs.Prelude.{◌≡◌, ◌++◌, ◌<◌, OnOk, decimal};
ghost use Rattle.zone_scripts.specs.Hex.{hex_digit, digit_at, hex_text};
ghost use Rattle.zone_scripts.specs.Lines.{named};
ghost use Rattle.zone_scripts.specs.Text.{named_text, sized_text};

use itoa::Buffer;
use std::alloc::AllocError;

/// A name: a letter, and the address of a master pointer or of a block.
#[derive(Clone, Copy)]
pub struct Name {
    pub letter: u8,
    pub address: u32,
}

/// Appends bytes.
pub fn put(text: &mut Vec<u8>, bytes: &[u8]) -> Result<(), AllocError>
    ensures { OnOk result (text.new.items ≡ text.old.items ++ bytes.now) }
{
    text.extend_from_slice(bytes)
}

/// Appends a number in decimal.
pub fn push_decimal(text: &mut Vec<u8>, number: u128) -> Result<(), AllocError>
    ensures { OnOk result (text.new.items ≡ text.old.items ++ decimal number) }
{
    text.extend_from_slice(Buffer::new().format(number).as_bytes())
}

/// Returns a digit in hexadecimal.
fn hex_digit(digit: u8) -> u8
    requires { digit < 16 }
    ensures { result ≡ hex_digit digit }
{
    if digit < 10 { 48 + digit } else { 55 + digit }
}

/// Returns the hexadecimal digit of a number that counts so many.
#[tactic(auto, unfolding(crate::specs::Hex::digit_at))]
fn digit_at(number: u32, unit: u32) -> u8
    requires { 0 < unit }
    ensures { result ≡ digit_at number unit }
{
    hex_digit((number / unit % 16) as u8)
}

/// Appends the eight hexadecimal digits of an address.
#[tactic(auto, unfolding(crate::specs::Hex::hex_text))]
pub fn push_hex(text: &mut Vec<u8>, number: u32) -> Result<(), AllocError>
    ensures { OnOk result (text.new.items ≡ text.old.items ++ hex_text number) }
{
    text.extend_from_slice(&[
        digit_at(number, 0x10000000),
        digit_at(number, 0x1000000),
        digit_at(number, 0x100000),
        digit_at(number, 0x10000),
        digit_at(number, 0x1000),
        digit_at(number, 0x100),
        digit_at(number, 0x10),
        digit_at(number, 1),
    ])
}

/// Appends a name.
fn push_name(text: &mut Vec<u8>, name: Name) -> Result<(), AllocError>
    ensures { OnOk result (text.new.items ≡ text.old.items ++ named name.letter name.address) }
{
    text.push(name.letter)?;
    push_hex(text, name.address)
}

/// Appends the line of a call with a name.
#[tactic(auto, unfolding(crate::specs::Text::named_text))]
pub fn push_named(text: &mut Vec<u8>, word: &[u8], name: Name) -> Result<(), AllocError>
    ensures { OnOk result (text.new.items
        ≡ text.old.items ++ named_text word.now (named name.letter name.address)) }
{
    put(text, word)?;
    put(text, b" ")?;
    push_name(text, name)?;
    put(text, b"\n")
}

/// Appends the line of a call with a name and a size.
#[tactic(auto, unfolding(crate::specs::Text::sized_text))]
pub fn push_sized(text: &mut Vec<u8>, word: &[u8], name: Name, size: u32) -> Result<(), AllocError>
    ensures { OnOk result (text.new.items
        ≡ text.old.items ++ sized_text word.now (named name.letter name.address) size) }
{
    put(text, word)?;
    put(text, b" ")?;
    push_name(text, name)?;
    put(text, b" ")?;
    push_decimal(text, size as u128)?;
    put(text, b"\n")
}
