//! The bytes of a block.

ghost use Rattle.std.specs.Prelude.{◌≡◌, ◌++◌, OnOk, map, option_map};
ghost use Rattle.std.specs.List.{flat_map};
ghost use Rattle.zone_drawing.specs.Bytes.{byte_digits, byte_character, row_line, row_text, is_full};
ghost use Rattle.zone_drawing.specs.Bytes.{bytes_text, content_text, block_text};

use crate::digits::hex_digits;
use crate::style::{Style, push_left, put};
use crate::totals::push_after;
use mac_words::upper_digit;
use std::alloc::{AllocError, Global};

/// The columns in which bytes are shown have no names.
const UNNAMED: Style = Style::Columns(0);

/// The number of bytes in a row.
const ROW: usize = 16;

/// Appends each byte as two hexadecimal digits after a blank.
fn push_digits(text: &mut Vec<u8>, row: &[u8]) -> Result<(), AllocError>
    ensures { OnOk result (text.new.items ≡ text.old.items ++ flat_map byte_digits row.now) }
{
    for byte in row {
        text.extend_from_slice(&[b' ', upper_digit(*byte / 16), upper_digit(*byte % 16)])?;
    }
    Ok(())
}

/// Returns a byte as a character, `.` where it has no printable one in ASCII.
fn byte_character(byte: u8) -> u8
    ensures { result ≡ byte_character byte }
{
    if 32 <= byte && byte <= 126 {
        byte
    } else {
        b'.'
    }
}

/// Appends each byte as a character.
fn push_characters(text: &mut Vec<u8>, row: &[u8]) -> Result<(), AllocError>
    ensures { OnOk result (text.new.items ≡ text.old.items ++ map byte_character row.now) }
{
    for byte in row {
        text.push(byte_character(*byte))?;
    }
    Ok(())
}

/// Appends the line of a row that begins at this distance from the first byte of a block's content.
fn push_row_line(
    alloc: Global,
    text: &mut Vec<u8>,
    from: u128,
    row: &[u8],
) -> Result<(), AllocError>
    ensures { OnOk result (text.new.items ≡ text.old.items ++ row_line from row.now) }
{
    let mut digits = Vec::new(alloc);
    push_digits(&mut digits, row)?;
    put(text, &hex_digits(from))?;
    put(text, b" ")?;
    push_left(text, UNNAMED, 48, &digits)?;
    put(text, b"  ")?;
    push_characters(text, row)?;
    put(text, b"\n")?;
    Ok(())
}

/// Appends a row, if it has any bytes.
fn push_row(alloc: Global, text: &mut Vec<u8>, from: u128, row: &[u8]) -> Result<(), AllocError>
    ensures { OnOk result (text.new.items ≡ text.old.items ++ row_text from row.now) }
{
    match row {
        [] => Ok(()),
        [_, ..] => push_row_line(alloc, text, from, row),
    }
}

/// Reports whether a row has all the bytes that it can have.
fn is_full(row: &[u8]) -> bool
    ensures { result ≡ is_full row.now }
{
    ROW <= row.len()
}

/// Appends the rows of bytes.
fn push_bytes(alloc: Global, text: &mut Vec<u8>, bytes: &[u8]) -> Result<(), AllocError>
    ensures { OnOk result (text.new.items ≡ text.old.items ++ bytes_text bytes.now) }
{
    let mut row: Vec<u8> = Vec::new(alloc);
    let mut from: u128 = 0;
    for byte in bytes {
        if is_full(&row) {
            push_row(alloc, text, from, &row)?;
            from += row.len() as u128;
            row.clear();
        }
        row.push(*byte)?;
    }
    push_row(alloc, text, from, &row)
}

/// Appends the bytes of the block of what a name stands for, or words where that has no block.
fn push_content(
    alloc: Global,
    text: &mut Vec<u8>,
    name: &[u8],
    bytes: Option<&[u8]>,
) -> Result<(), AllocError>
    ensures { OnOk result (text.new.items
        ≡ text.old.items ++ content_text name.now (option_map (λ b. b.now) bytes.entry)) }
{
    match bytes {
        Some(bytes) => push_bytes(alloc, text, bytes),
        None => {
            put(text, name)?;
            put(text, b" has no block\n")?;
            Ok(())
        }
    }
}

/// Appends the bytes of the block of what a name stands for, or words where that has no block, and
/// the line that says after which step they are shown.
pub fn write_bytes(
    alloc: Global,
    text: &mut Vec<u8>,
    name: &[u8],
    bytes: Option<&[u8]>,
    step: &[u8],
) -> Result<(), AllocError>
    ensures { OnOk result (text.new.items
        ≡ text.old.items ++ block_text name.now (option_map (λ b. b.now) bytes.entry) step.now) }
{
    push_content(alloc, text, name, bytes)?;
    put(text, b"\n")?;
    push_after(text, UNNAMED, step)?;
    Ok(())
}
