//! Numbers in the bytes of a dump, the highest byte first.

ghost use Rattle.std.specs.Prelude.{◌≡◌, ◌+◌, ◌≤◌, ◌<◌, ◌^◌, length};
ghost use Rattle.std.specs.Int.{w16, cast_signed};
ghost use Rattle.real_zone.specs.Numbers.{number};

use byteorder::{BigEndian, ByteOrder};

/// Returns the number of four bytes at an offset.
#[tactic(auto, unfolding(crate::specs::Numbers::number))]
pub fn long(bytes: &[u8], at: usize) -> usize
    requires { at + 4 ≤ length bytes.now }
    ensures value { result ≡ number 4 at bytes.now }
    ensures small { result < 2 ^ 32 }
{
    BigEndian::read_u32(&bytes[at..]) as usize
}

/// Returns the number of three bytes at an offset.
#[tactic(auto, unfolding(crate::specs::Numbers::number))]
pub fn three(bytes: &[u8], at: usize) -> usize
    requires { at + 3 ≤ length bytes.now }
    ensures value { result ≡ number 3 at bytes.now }
    ensures small { result < 2 ^ 32 }
{
    BigEndian::read_u24(&bytes[at..]) as usize
}

/// Returns the number of two bytes at an offset.
#[tactic(auto, unfolding(crate::specs::Numbers::number))]
pub fn word(bytes: &[u8], at: usize) -> u16
    requires { at + 2 ≤ length bytes.now }
    ensures { result ≡ number 2 at bytes.now }
{
    BigEndian::read_u16(&bytes[at..])
}

/// Returns the signed number of two bytes at an offset.
#[tactic(auto, unfolding(crate::specs::Numbers::number))]
pub fn signed_word(bytes: &[u8], at: usize) -> i16
    requires { at + 2 ≤ length bytes.now }
    ensures { result ≡ cast_signed w16 (number 2 at bytes.now) }
{
    BigEndian::read_i16(&bytes[at..])
}

/// Returns the byte at an offset.
#[tactic(auto, unfolding(crate::specs::Numbers::number))]
pub fn byte(bytes: &[u8], at: usize) -> usize
    requires { at + 1 ≤ length bytes.now }
    ensures value { result ≡ number 1 at bytes.now }
    ensures small { result < 2 ^ 8 }
{
    bytes[at] as usize
}

/// Returns the byte at an offset, and 0 past the end.
#[tactic(auto, using(crate::proofs::Giving::past_end))]
pub fn byte_or_zero(bytes: &[u8], at: usize) -> usize
    ensures value { result ≡ number 1 at bytes.now }
    ensures small { result < 2 ^ 8 }
{
    if at < bytes.len() { byte(bytes, at) } else { 0 }
}
