//! How fields are written.

ghost use Rattle.std.specs.Prelude.{◌≡◌, ◌++◌, ◌<◌, OnOk, decimal, replicate};
ghost use Rattle.real_zone_view.specs.Fields as spec;

use crate::style::{Digits, Fields, Style};
use itoa::Buffer;
use std::alloc::AllocError;

/// Appends bytes.
pub fn put(text: &mut Vec<u8>, bytes: &[u8]) -> Result<(), AllocError>
    ensures { OnOk result (text.new.items ≡ text.old.items ++ bytes.now) }
{
    text.extend_from_slice(bytes)
}

/// Appends `n` blanks.
fn push_blanks(text: &mut Vec<u8>, n: usize) -> Result<(), AllocError>
    ensures { OnOk result (text.new.items ≡ text.old.items ++ replicate n 32) }
{
    for _blank in 0..n {
        text.push(b' ')?;
    }
    Ok(())
}

/// Appends a field, and the blanks after it.
#[tactic(auto, unfolding(crate::specs::Fields::left))]
fn push_left(text: &mut Vec<u8>, width: usize, field: &[u8]) -> Result<(), AllocError>
    ensures { OnOk result (text.new.items ≡ text.old.items ++ spec.left width field.now) }
{
    text.extend_from_slice(field)?;
    push_blanks(text, width.saturating_sub(field.len()))
}

/// Appends a field, and the blanks before it.
#[tactic(auto, unfolding(crate::specs::Fields::right))]
fn push_right(text: &mut Vec<u8>, width: usize, field: &[u8]) -> Result<(), AllocError>
    ensures { OnOk result (text.new.items ≡ text.old.items ++ spec.right width field.now) }
{
    push_blanks(text, width.saturating_sub(field.len()))?;
    text.extend_from_slice(field)
}

/// Appends the first field of a line.
#[tactic(auto, unfolding(crate::specs::Fields::first_field))]
pub fn push_first(
    text: &mut Vec<u8>,
    fields: Fields,
    width: usize,
    field: &[u8],
) -> Result<(), AllocError>
    ensures { OnOk result (text.new.items
        ≡ text.old.items ++ spec.first_field fields width field.now) }
{
    match fields {
        Fields::Columns => push_left(text, width, field),
        Fields::Tabs => text.extend_from_slice(field),
    }
}

/// Appends a field whose column is aligned on the left.
#[tactic(auto, unfolding(crate::specs::Fields::left_field))]
pub fn push_left_field(
    text: &mut Vec<u8>,
    fields: Fields,
    width: usize,
    field: &[u8],
) -> Result<(), AllocError>
    ensures { OnOk result (text.new.items
        ≡ text.old.items ++ spec.left_field fields width field.now) }
{
    match fields {
        Fields::Columns => {
            put(text, b" ")?;
            push_left(text, width, field)
        }
        Fields::Tabs => {
            put(text, b"\t")?;
            text.extend_from_slice(field)
        }
    }
}

/// Appends a field whose column is aligned on the right.
#[tactic(auto, unfolding(crate::specs::Fields::right_field))]
pub fn push_right_field(
    text: &mut Vec<u8>,
    fields: Fields,
    width: usize,
    field: &[u8],
) -> Result<(), AllocError>
    ensures { OnOk result (text.new.items
        ≡ text.old.items ++ spec.right_field fields width field.now) }
{
    match fields {
        Fields::Columns => push_right(text, width, field),
        Fields::Tabs => {
            put(text, b"\t")?;
            text.extend_from_slice(field)
        }
    }
}

/// Appends a field with a number in decimal.
pub fn push_number(
    text: &mut Vec<u8>,
    fields: Fields,
    width: usize,
    number: u128,
) -> Result<(), AllocError>
    ensures { OnOk result (text.new.items
        ≡ text.old.items ++ spec.right_field fields width (decimal number)) }
{
    push_right_field(text, fields, width, Buffer::new().format(number).as_bytes())
}

/// Returns a digit in hexadecimal.
fn hex_digit(digit: u8) -> u8
    requires { digit < 16 }
    ensures { result ≡ spec.hex_digit digit }
{
    if digit < 10 { 48 + digit } else { 55 + digit }
}

/// Returns the hexadecimal digit of a number that counts so many.
#[tactic(auto, unfolding(crate::specs::Fields::digit_at))]
fn digit_at(number: u128, unit: u128) -> u8
    requires { 0 < unit }
    ensures { result ≡ spec.digit_at number unit }
{
    hex_digit((number / unit % 16) as u8)
}

/// Appends the last eight hexadecimal digits of a number, which are those of an address.
#[tactic(auto, unfolding(crate::specs::Fields::hex_text))]
pub fn push_hex(text: &mut Vec<u8>, number: u128) -> Result<(), AllocError>
    ensures { OnOk result (text.new.items ≡ text.old.items ++ spec.hex_text number) }
{
    text.extend_from_slice(&[
        digit_at(number, 0x10000000),
        digit_at(number, 0x1000000),
        digit_at(number, 0x100000),
        digit_at(number, 0x10000),
        digit_at(number, 0x1000),
        digit_at(number, 0x100),
        digit_at(number, 0x10),
        digit_at(number, 1),
    ])
}

/// Appends a field with eight hexadecimal digits.
#[tactic(auto, unfolding(crate::specs::Fields::hex_field))]
fn push_hex_field(
    text: &mut Vec<u8>,
    fields: Fields,
    width: usize,
    number: u128,
) -> Result<(), AllocError>
    ensures { OnOk result (text.new.items ≡ text.old.items ++ spec.hex_field fields width number) }
{
    match fields {
        Fields::Columns => push_blanks(text, width.saturating_sub(8))?,
        Fields::Tabs => put(text, b"\t")?,
    }
    push_hex(text, number)
}

/// Appends the field of a size.
#[tactic(auto, unfolding(crate::specs::Fields::size_with))]
pub fn push_size(
    text: &mut Vec<u8>,
    style: Style,
    width: usize,
    size: u128,
) -> Result<(), AllocError>
    ensures { OnOk result (text.new.items ≡ text.old.items ++ spec.size_field style width size) }
{
    match style.digits {
        Digits::Decimal => push_number(text, style.fields, width, size),
        Digits::Hexadecimal => push_hex_field(text, style.fields, width, size),
    }
}
