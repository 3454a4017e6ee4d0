//! The names of the files to which resources are written. Where the host is out of memory, a text
//! may have got a part of what is appended.

ghost use Rattle.std.specs.Prelude.{◌≡◌, ◌++◌, OnOk, replicate, take, string_bytes};
ghost use Rattle.std.specs.List.{flat_map};
ghost use Rattle.std.specs.Fmt.{signed_decimal};
ghost use Rattle.byteorder.specs.Endian.{big_number, big_bytes};
ghost use Rattle.fork_format.specs.View.{view_name};
ghost use Rattle.fork_edits.specs.Texts.{hex_byte};
ghost use Rattle.fork_edits.specs.FileNames.{is_plain_byte, safe_byte, place_text, name_part};
ghost use Rattle.fork_edits.specs.FileNames.{resource_part, file_name};
ghost use Rattle.fork_edits.specs.View.{view_row};

use crate::resources::Row;
use byteorder::{BigEndian, ByteOrder};
use fork_format::{RefName, kind_of};
use itoa::Buffer;
use mac_words::{OsType, upper_digit};
use std::alloc::AllocError;

/// The greatest number of bytes of a name that are shown in the name of a file.
const SHOWN: usize = 48;

/// Reports whether a byte is a letter or a digit.
fn is_plain(byte: u8) -> bool
    ensures { result ≡ is_plain_byte byte }
{
    matches!(byte, b'0'..=b'9' | b'A'..=b'Z' | b'a'..=b'z')
}

/// Appends the two hexadecimal digits of a byte.
fn push_digits(text: &mut String, byte: u8) -> Result<(), AllocError>
    ensures { OnOk result (string_bytes text.new ≡ string_bytes text.old ++ hex_byte byte) }
{
    text.push(char::from(upper_digit(byte / 16)))?;
    text.push(char::from(upper_digit(byte % 16)))?;
    Ok(())
}

/// Appends a letter or a digit as it is, and any other byte as `_` and two hexadecimal digits.
pub(crate) fn push_safe(text: &mut String, byte: u8) -> Result<(), AllocError>
    ensures { OnOk result (string_bytes text.new ≡ string_bytes text.old ++ safe_byte byte) }
{
    if is_plain(byte) {
        text.push(char::from(byte))?;
    } else {
        text.push_str("_")?;
        push_digits(text, byte)?;
    }
    Ok(())
}

/// Appends bytes, each so that it may stand in the name of a file.
fn push_all_safe(text: &mut String, bytes: &[u8]) -> Result<(), AllocError>
    ensures { OnOk result (string_bytes text.new
        ≡ string_bytes text.old ++ flat_map safe_byte bytes.now) }
{
    for byte in bytes {
        push_safe(text, *byte)?;
    }
    Ok(())
}

/// Appends zeros.
fn push_zeros(text: &mut String, count: usize) -> Result<(), AllocError>
    ensures { OnOk result (string_bytes text.new ≡ string_bytes text.old ++ replicate count 48) }
{
    for _ in 0..count {
        text.push_str("0")?;
    }
    Ok(())
}

/// Appends a number in decimal, with zeros before it up to four digits.
fn push_place(text: &mut String, number: usize) -> Result<(), AllocError>
    ensures { OnOk result (string_bytes text.new ≡ string_bytes text.old ++ place_text number) }
{
    let mut buffer = Buffer::new();
    let digits = buffer.format(number);
    push_zeros(text, 4usize.saturating_sub(digits.len()))?;
    text.push_str(digits)?;
    Ok(())
}

/// Returns the first bytes of a name.
fn shown(bytes: &[u8]) -> &[u8]
    ensures { result.now ≡ take 48 bytes.now }
{
    if bytes.len() <= SHOWN {
        return bytes;
    }
    bytes.split_at(SHOWN).0
}

/// Appends the first bytes of a name, or nothing for no name.
fn push_name_part(text: &mut String, name: &Option<RefName<'_>>) -> Result<(), AllocError>
    ensures { OnOk result (string_bytes text.new
        ≡ string_bytes text.old ++ name_part (view_name name.now)) }
{
    if let Some(name) = name {
        text.push_str("-")?;
        push_all_safe(text, shown(name.bytes))?;
    }
    Ok(())
}

/// Appends a type, so that it may stand in the name of a file.
fn push_type(text: &mut String, ty: OsType) -> Result<(), AllocError>
    ensures { OnOk result (string_bytes text.new
        ≡ string_bytes text.old ++ flat_map safe_byte (big_bytes 4 (big_number 4 ty.0))) }
{
    let mut bytes = [0; 4];
    BigEndian::write_u32(&mut bytes, kind_of(ty));
    push_all_safe(text, &bytes)
}

/// Appends an ID in decimal.
pub(crate) fn push_number(text: &mut String, id: &i16) -> Result<(), AllocError>
    ensures { OnOk result (string_bytes text.new ≡ string_bytes text.old ++ signed_decimal id.now) }
{
    text.push_str(Buffer::new().format(*id))?;
    Ok(())
}

/// Appends the type, the ID and the name of a resource.
fn push_resource(text: &mut String, row: &Row<'_>) -> Result<(), AllocError>
    ensures { OnOk result (string_bytes text.new
        ≡ string_bytes text.old ++ resource_part (view_row row.now)) }
{
    push_type(text, row.ty)?;
    text.push_str("-")?;
    push_number(text, &row.resource.id)?;
    push_name_part(text, &row.resource.name)?;
    Ok(())
}

/// Appends the name of the file to which the resource with a number is written, as
/// `0001-STR_20-128-Greeting.bin`: the number, the type, the ID, and up to 48 bytes of the name, if
/// the resource has one. A byte that is no letter and no digit is `_` and two hexadecimal digits.
///
/// Two names with different numbers differ, also where a host takes letters in either case for the
/// same (`file_names_are_apart`).
pub fn append_file_name(text: &mut String, number: usize, row: &Row<'_>) -> Result<(), AllocError>
    ensures { OnOk result (string_bytes text.new
        ≡ string_bytes text.old ++ file_name number (view_row row.now)) }
{
    push_place(text, number)?;
    text.push_str("-")?;
    push_resource(text, row)?;
    text.push_str(".bin")?;
    Ok(())
}
