//! Bytes of a line, as a person reads them.

ghost use Rattle.std.specs.Prelude.{◌<◌, ◌≤◌, length};

use std::fmt;

/// The most bytes of a word that are shown.
const MOST_SHOWN: usize = 40;

/// Bytes that are shown as text: UTF-8 as it stands, and each byte that can't be shown as `\x` and
/// two digits. Of a long word the front is shown, and `..`.
#[derive(Clone, Copy)]
pub(crate) struct Bare<'t>(pub &'t [u8]);

/// Bytes that are shown as text in single quotes, unless they begin with a quotation mark of their
/// own.
#[derive(Clone, Copy)]
pub(crate) struct Quoted<'t>(pub &'t [u8]);

/// Reports whether a byte goes on with a character of UTF-8.
fn goes_on(byte: u8) -> bool {
    byte & 0xC0 == 0x80
}

/// Returns how many bytes of a long word are shown, so that no character is cut.
fn shown_length(bytes: &[u8]) -> usize
    requires { 40 < length bytes.now }
    ensures { result ≤ 40 }
{
    if !goes_on(bytes[40]) {
        40
    } else if !goes_on(bytes[39]) {
        39
    } else if !goes_on(bytes[38]) {
        38
    } else {
        37
    }
}

/// Returns the front of some bytes that is shown, and whether more follows.
fn front_of(bytes: &[u8]) -> (&[u8], bool) {
    if bytes.len() <= MOST_SHOWN {
        return (bytes, false);
    }
    (bytes.split_at(shown_length(bytes)).0, true)
}

fn write_byte<W: fmt::Write>(f: &mut fmt::Formatter<W>, byte: u8) -> fmt::Result {
    if b' ' <= byte && byte <= b'~' {
        write!(f, "{}", byte as char)
    } else {
        write!(f, "\\x{byte:02x}")
    }
}

fn write_bytes<W: fmt::Write>(f: &mut fmt::Formatter<W>, bytes: &[u8]) -> fmt::Result {
    for byte in bytes {
        write_byte(f, *byte)?;
    }
    Ok(())
}

fn write_text<W: fmt::Write>(f: &mut fmt::Formatter<W>, text: &str) -> fmt::Result {
    for letter in text.chars() {
        let number = letter as u32;
        if number < 128 {
            write_byte(f, number as u8)?;
        } else {
            write!(f, "{letter}")?;
        }
    }
    Ok(())
}

impl<'t> fmt::Display for Bare<'t> {
    fn fmt<W: fmt::Write>(&self, f: &mut fmt::Formatter<W>) -> fmt::Result {
        let (front, is_cut) = front_of(self.0);
        match str::from_utf8(front) {
            Ok(text) => write_text(f, text)?,
            Err(_) => write_bytes(f, front)?,
        }
        if is_cut { f.write_str("..") } else { Ok(()) }
    }
}

impl<'t> fmt::Display for Quoted<'t> {
    fn fmt<W: fmt::Write>(&self, f: &mut fmt::Formatter<W>) -> fmt::Result {
        match self.0 {
            [b'"' | b'\'', ..] => write!(f, "{}", Bare(self.0)),
            _ => write!(f, "'{}'", Bare(self.0)),
        }
    }
}
