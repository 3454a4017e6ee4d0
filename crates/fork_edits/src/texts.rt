//! Types and names as a person reads them. Where the host is out of memory, a text may have got a
//! part of what is appended.

ghost use Rattle.std.specs.Prelude.{◌≡◌, ◌<◌, ◌++◌, OnOk, length};
ghost use Rattle.std.specs.List.{flat_map, list_all};
ghost use Rattle.std.specs.Fmt.{signed_decimal};
ghost use Rattle.byteorder.specs.Endian.{big_number, big_bytes};
ghost use Rattle.fork_format.specs.View.{view_name};
ghost use Rattle.mac_roman.specs.Charset.{character};
ghost use Rattle.fork_edits.specs.Texts.{hex_byte, is_clear, four_text, type_text, char_text};
ghost use Rattle.fork_edits.specs.Texts.{name_text};

use byteorder::{BigEndian, ByteOrder};
use fork_format::{RefName, kind_of};
use itoa::Buffer;
use mac_roman::{Charset, append_character};
use mac_words::{OsType, upper_digit};
use std::alloc::AllocError;

/// Appends the two hexadecimal digits of a byte.
pub(crate) fn push_hex(text: &mut Vec<u8>, byte: u8) -> Result<(), AllocError>
    ensures { OnOk result (text.new.items ≡ text.old.items ++ hex_byte byte) }
{
    text.extend_from_slice(&[upper_digit(byte / 16), upper_digit(byte % 16)])
}

/// Appends the hexadecimal digits of bytes.
pub(crate) fn push_digits(text: &mut Vec<u8>, bytes: &[u8]) -> Result<(), AllocError>
    ensures { OnOk result (text.new.items ≡ text.old.items ++ flat_map hex_byte bytes.now) }
{
    for byte in bytes {
        push_hex(text, *byte)?;
    }
    Ok(())
}

/// Appends an ID in decimal.
pub(crate) fn push_id(text: &mut Vec<u8>, id: &i16) -> Result<(), AllocError>
    ensures { OnOk result (text.new.items ≡ text.old.items ++ signed_decimal id.now) }
{
    text.extend_from_slice(Buffer::new().format(*id).as_bytes())
}

/// Reports whether each byte may stand between single quotes.
fn are_clear(charset: Charset, bytes: &[u8]) -> bool
    ensures { result ≡ list_all (is_clear charset) bytes.now }
{
    for byte in bytes {
        if !charset.prints(*byte) || *byte == b'\'' {
            return false;
        }
    }
    true
}

/// Appends the characters that bytes stand for.
fn push_characters(text: &mut Vec<u8>, bytes: &[u8]) -> Result<(), AllocError>
    ensures { OnOk result (text.new.items ≡ text.old.items ++ flat_map character bytes.now) }
{
    for byte in bytes {
        append_character(text, *byte)?;
    }
    Ok(())
}

/// Appends the four characters of a type in quotes, or the digits of its bytes.
fn push_four(text: &mut Vec<u8>, charset: Charset, bytes: &[u8]) -> Result<(), AllocError>
    ensures { OnOk result (text.new.items ≡ text.old.items ++ four_text charset bytes.now) }
{
    if are_clear(charset, bytes) {
        text.push(b'\'')?;
        push_characters(text, bytes)?;
        text.push(b'\'')?;
    } else {
        text.push(b'$')?;
        push_digits(text, bytes)?;
    }
    Ok(())
}

/// Appends a type as a person reads it: `'STR '`, or `$` and eight hexadecimal digits where one of
/// the four bytes is a single quote or isn't printed as a character (`Charset::prints`).
pub fn append_type(text: &mut Vec<u8>, charset: Charset, ty: OsType) -> Result<(), AllocError>
    ensures { OnOk result (text.new.items
        ≡ text.old.items ++ type_text charset (big_number 4 ty.0)) }
{
    let mut bytes = [0; 4];
    BigEndian::write_u32(&mut bytes, kind_of(ty));
    push_four(text, charset, &bytes)
}

/// Appends a byte of a name.
fn push_char(text: &mut Vec<u8>, charset: Charset, byte: u8) -> Result<(), AllocError>
    ensures { OnOk result (text.new.items ≡ text.old.items ++ char_text charset byte) }
{
    if byte == b'"' || byte == b'\\' {
        text.extend_from_slice(&[b'\\', byte])?;
    } else if charset.prints(byte) {
        append_character(text, byte)?;
    } else {
        text.extend_from_slice(b"\\0x")?;
        push_hex(text, byte)?;
    }
    Ok(())
}

/// Appends the bytes of a name.
fn push_chars(text: &mut Vec<u8>, charset: Charset, bytes: &[u8]) -> Result<(), AllocError>
    ensures { OnOk result (text.new.items
        ≡ text.old.items ++ flat_map (char_text charset) bytes.now) }
{
    for byte in bytes {
        push_char(text, charset, *byte)?;
    }
    Ok(())
}

/// Appends a name as a person reads it: in double quotes, with a backslash before a double quote or
/// a backslash, and `\0x` with two hexadecimal digits for a byte that isn't printed as a character
/// (`Charset::prints`); `-` for no name.
pub fn append_name(
    text: &mut Vec<u8>,
    charset: Charset,
    name: &Option<RefName<'_>>,
) -> Result<(), AllocError>
    ensures { OnOk result (text.new.items
        ≡ text.old.items ++ name_text charset (view_name name.now)) }
{
    let Some(name) = name else {
        text.push(b'-')?;
        return Ok(());
    };
    text.push(b'"')?;
    push_chars(text, charset, name.bytes)?;
    text.push(b'"')?;
    Ok(())
}
