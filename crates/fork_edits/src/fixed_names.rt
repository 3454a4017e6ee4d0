//! The names of the files to which resources are written, by type and ID alone. Where the host is
//! out of memory, a text may have got a part of what is appended.

ghost use Rattle.std.specs.Prelude.{◌≡◌, ◌<◌, ◌++◌, OnOk, string_bytes, false};
ghost use Rattle.byteorder.specs.Endian.{big_number, big_bytes};
ghost use Rattle.fork_edits.specs.FixedNames.{is_capital, is_small, letter, fixed_byte, case_after};
ghost use Rattle.fork_edits.specs.FixedNames.{fixed_bytes, fixed_name};

use crate::file_names::{push_number, push_safe};
use byteorder::{BigEndian, ByteOrder};
use fork_format::kind_of;
use mac_words::OsType;
use std::alloc::AllocError;

/// Reports whether a byte is a capital.
fn is_upper(byte: u8) -> bool
    ensures { result ≡ is_capital byte }
{
    matches!(byte, b'A'..=b'Z')
}

/// Reports whether a byte is a small letter.
fn is_lower(byte: u8) -> bool
    ensures { result ≡ is_small byte }
{
    matches!(byte, b'a'..=b'z')
}

/// Appends a letter, after a plus where its case is not that of the letter before it.
fn push_letter(text: &mut String, turns: bool, byte: u8) -> Result<(), AllocError>
    requires { byte < 128 }
    ensures { OnOk result (string_bytes text.new ≡ string_bytes text.old ++ letter turns byte) }
{
    if turns {
        text.push_str("+")?;
        text.push(char::from(byte))?;
    } else {
        text.push(char::from(byte))?;
    }
    Ok(())
}

/// Appends a byte that follows a letter in small or in capitals.
fn push_fixed(text: &mut String, small: bool, byte: u8) -> Result<(), AllocError>
    ensures { OnOk result (string_bytes text.new ≡ string_bytes text.old ++ fixed_byte small byte) }
{
    if is_upper(byte) {
        push_letter(text, small, byte)?;
    } else if is_lower(byte) {
        push_letter(text, !small, byte)?;
    } else {
        push_safe(text, byte)?;
    }
    Ok(())
}

/// Reports whether the last letter is small, with one byte more.
fn is_small_after(small: bool, byte: u8) -> bool
    ensures { result ≡ case_after small byte }
{
    if is_upper(byte) {
        return false;
    }
    is_lower(byte) || small
}

/// Appends bytes, each so that it may stand in the name of a file.
fn push_all_fixed(text: &mut String, bytes: &[u8]) -> Result<(), AllocError>
    ensures { OnOk result (string_bytes text.new
        ≡ string_bytes text.old ++ fixed_bytes false bytes.now) }
{
    let mut small = false;
    for byte in bytes {
        push_fixed(text, small, *byte)?;
        small = is_small_after(small, *byte);
    }
    Ok(())
}

/// Appends a type, so that it may stand in the name of a file.
fn push_fixed_type(text: &mut String, ty: OsType) -> Result<(), AllocError>
    ensures { OnOk result (string_bytes text.new
        ≡ string_bytes text.old ++ fixed_bytes false (big_bytes 4 (big_number 4 ty.0))) }
{
    let mut bytes = [0; 4];
    BigEndian::write_u32(&mut bytes, kind_of(ty));
    push_all_fixed(text, &bytes)
}

/// Appends the name of the file to which the resource of a type and an ID is written, as
/// `STR_20-128.bin` or `+vers-1.bin`: the type and the ID. A plus stands before a letter whose case
/// is not that of the letter before it (a capital at first); a byte that is no letter and no digit
/// is `_` and two hexadecimal digits.
///
/// The name does not depend on the other resources of the fork, and two names differ, also where a
/// host takes letters in either case for the same (`fixed_file_names_are_apart`).
pub fn append_fixed_name(text: &mut String, ty: OsType, id: &i16) -> Result<(), AllocError>
    ensures { OnOk result (string_bytes text.new
        ≡ string_bytes text.old ++ fixed_name (big_number 4 ty.0) id.now) }
{
    push_fixed_type(text, ty)?;
    text.push_str("-")?;
    push_number(text, id)?;
    text.push_str(".bin")?;
    Ok(())
}
