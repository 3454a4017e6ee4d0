//! Bytes of Mac OS Roman as they are printed.

ghost use Rattle.std.specs.Prelude.{◌≡◌, ◌++◌, OnOk};
ghost use Rattle.mac_roman.specs.Charset.{is_printable as is_printable_of, prints, character};

use crate::table::character_of;
use std::alloc::AllocError;

/// The characters in which text is printed.
#[derive(Clone, Copy, Debug, PartialEq, Eq)]
pub enum Charset {
    /// Those of ASCII alone.
    Ascii,
    /// Those of Mac OS Roman, in UTF-8.
    Utf8,
}

/// Reports whether a byte is a printable character of ASCII.
fn is_printable(byte: u8) -> bool
    ensures { result ≡ is_printable_of byte }
{
    32 <= byte && byte <= 126
}

impl Charset {
    /// Reports whether a byte is printed as the character that it stands for: a printable one of
    /// ASCII, and, in UTF-8, each byte from 0x80.
    pub fn prints(self, byte: u8) -> bool
        ensures { result ≡ prints self byte }
    {
        match self {
            Charset::Ascii => is_printable(byte),
            Charset::Utf8 => is_printable(byte) || byte >= 0x80,
        }
    }
}

/// Appends a character in UTF-8.
fn append_char(text: &mut Vec<u8>, byte: u8) -> Result<(), AllocError>
    ensures { OnOk result (text.new.items ≡ text.old.items ++ character byte) }
{
    let mut bytes = [0; 4];
    text.extend_from_slice(character_of(byte).encode_utf8(&mut bytes).as_bytes())
}

/// Appends the character that a byte stands for, in UTF-8. Where the host is out of memory, the
/// text may have got a part of it.
pub fn append_character(text: &mut Vec<u8>, byte: u8) -> Result<(), AllocError>
    ensures { OnOk result (text.new.items ≡ text.old.items ++ character byte) }
{
    if byte < 0x80 {
        text.push(byte)?;
        return Ok(());
    }
    append_char(text, byte)
}
