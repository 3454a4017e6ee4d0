//! Numbers in the bytes of a fork, the highest byte first, and the types and IDs of resources.

ghost use Rattle.std.specs.Prelude.{◌≡◌, ◌+◌, ◌≤◌, ◌<◌, ◌^◌, length, drop};
ghost use Rattle.std.specs.Int.{cast_signed, w16};
ghost use Rattle.fork_format.specs.Fork.{number, part};

use byteorder::{BigEndian, ByteOrder};
use mac_words::OsType;

/// Returns the number of four bytes at an offset.
pub fn word(bytes: &[u8], at: usize) -> usize
    requires { at + 4 ≤ length bytes.now }
    ensures value { result ≡ number 4 at bytes.now }
    ensures small { result < 2 ^ 32 }
{
    BigEndian::read_u32(&bytes[at..]) as usize
}

/// Returns the number of three bytes at an offset.
pub fn three(bytes: &[u8], at: usize) -> usize
    requires { at + 3 ≤ length bytes.now }
    ensures value { result ≡ number 3 at bytes.now }
    ensures small { result < 2 ^ 32 }
{
    BigEndian::read_u24(&bytes[at..]) as usize
}

/// Returns the number of two bytes at an offset.
pub fn half(bytes: &[u8], at: usize) -> usize
    requires { at + 2 ≤ length bytes.now }
    ensures value { result ≡ number 2 at bytes.now }
    ensures small { result < 2 ^ 16 }
{
    BigEndian::read_u16(&bytes[at..]) as usize
}

/// Returns the byte at an offset.
pub fn byte(bytes: &[u8], at: usize) -> usize
    requires { at + 1 ≤ length bytes.now }
    ensures value { result ≡ number 1 at bytes.now }
    ensures small { result < 2 ^ 8 }
{
    bytes[at] as usize
}

/// Returns the resource ID at an offset.
pub fn id_at(bytes: &[u8], at: usize) -> i16
    requires { at + 2 ≤ length bytes.now }
    ensures { result ≡ cast_signed w16 (number 2 at bytes.now) }
{
    BigEndian::read_i16(&bytes[at..])
}

/// Returns the type at an offset.
pub fn type_at(bytes: &[u8], at: usize) -> OsType
    requires { at + 4 ≤ length bytes.now }
    ensures { result.0 ≡ part 4 at bytes.now }
{
    let mut ty = [0; 4];
    ty.copy_from_slice(&bytes[at..at + 4]);
    OsType(ty)
}

/// Returns the bytes from an offset on, of which there may be none.
pub fn rest_of(bytes: &[u8], at: usize) -> &[u8]
    ensures { result.now ≡ drop at bytes.now }
{
    if at < bytes.len() {
        &bytes[at..]
    } else {
        &bytes[0..0]
    }
}
