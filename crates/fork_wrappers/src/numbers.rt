//! Numbers in the bytes of a file, the highest byte first.

ghost use Rattle.std.specs.Prelude.{◌≡◌, ◌+◌, ◌-◌, ◌≤◌, ◌<◌, ◌^◌, ◌++◌, length, drop, replicate};
ghost use Rattle.std.specs.Prelude.{OnOk};
ghost use Rattle.byteorder.specs.Endian.{big_bytes};
ghost use Rattle.fork_format.specs.Fork.{number, part};

use byteorder::{BigEndian, ByteOrder};
use std::alloc::AllocError;

/// Returns the number of four bytes at an offset.
pub fn word(bytes: &[u8], at: usize) -> usize
    requires { at + 4 ≤ length bytes.now }
    ensures value { result ≡ number 4 at bytes.now }
    ensures small { result < 2 ^ 32 }
{
    BigEndian::read_u32(&bytes[at..]) as usize
}

/// Returns the number of two bytes at an offset.
pub fn half(bytes: &[u8], at: usize) -> usize
    requires { at + 2 ≤ length bytes.now }
    ensures value { result ≡ number 2 at bytes.now }
    ensures small { result < 2 ^ 16 }
{
    BigEndian::read_u16(&bytes[at..]) as usize
}

/// Returns the byte at an offset.
pub fn byte(bytes: &[u8], at: usize) -> usize
    requires { at + 1 ≤ length bytes.now }
    ensures value { result ≡ number 1 at bytes.now }
    ensures small { result < 2 ^ 8 }
{
    bytes[at] as usize
}

/// Returns the bytes at an offset.
pub fn part_of<'b>(bytes: &'b [u8], at: usize, size: usize) -> &'b [u8]
    requires { at + size ≤ length bytes.now }
    ensures { result.now ≡ part size at bytes.now }
{
    &bytes[at..at + size]
}

/// Returns the bytes from one offset to another, as far as there are any.
pub fn bytes_between<'b>(bytes: &'b [u8], from: usize, to: usize) -> &'b [u8]
    requires { from ≤ length bytes.now }
    ensures { result.now ≡ part (to - from) from bytes.now }
{
    if to <= from {
        &bytes[from..from]
    } else if to <= bytes.len() {
        &bytes[from..to]
    } else {
        &bytes[from..]
    }
}

/// Returns the bytes from an offset on, as far as there are any.
pub fn bytes_from<'b>(bytes: &'b [u8], from: usize) -> &'b [u8]
    ensures { result.now ≡ drop from bytes.now }
{
    if from <= bytes.len() {
        &bytes[from..]
    } else {
        &bytes[bytes.len()..]
    }
}

/// Returns the bytes at an offset, as far as there are any.
pub fn part_within<'b>(bytes: &'b [u8], at: usize, size: usize) -> &'b [u8]
    ensures { result.now ≡ part size at bytes.now }
{
    let rest = bytes_from(bytes, at);
    if size <= rest.len() {
        &rest[..size]
    } else {
        rest
    }
}

/// Writes a number of four bytes.
pub fn put_word(out: &mut Vec<u8>, number: u32) -> Result<(), AllocError>
    ensures { OnOk result (out.new.items ≡ out.old.items ++ big_bytes 4 number) }
{
    let mut bytes = [0; 4];
    BigEndian::write_u32(&mut bytes, number);
    out.extend_from_slice(&bytes)?;
    Ok(())
}

/// Writes a number of two bytes.
pub fn put_half(out: &mut Vec<u8>, number: u16) -> Result<(), AllocError>
    ensures { OnOk result (out.new.items ≡ out.old.items ++ big_bytes 2 number) }
{
    let mut bytes = [0; 2];
    BigEndian::write_u16(&mut bytes, number);
    out.extend_from_slice(&bytes)?;
    Ok(())
}

/// Writes zeros.
#[tactic(auto, using(crate::proofs::Pieces::zero_more, crate::proofs::Pieces::no_zero_more))]
pub fn put_zeros(out: &mut Vec<u8>, count: usize) -> Result<(), AllocError>
    ensures { OnOk result (out.new.items ≡ out.old.items ++ replicate count 0) }
{
    for _ in 0..count {
        out.push(0)?;
    }
    Ok(())
}
