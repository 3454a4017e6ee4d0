//! The zones, and changes of their bytes.

use anyhow::{Context, Result};
use std::alloc::Global;

/// The address of the 24-bit zone.
pub const BASE_24: u32 = 0x1000;

/// A block of four master pointers, of which the last two are free; a locked block of 6 bytes; 16
/// free bytes; a purgeable resource of 4 bytes.
pub const ZONE_24: &str =
    "00001078 00000000 00001044 00000010 00000000 0004 0000 0000 0000 0000 0000 0000 0000
    00000000 00000000 00000000 00000000
    40 000018 00001000 80001054 60001074 00001048 00000000
    82 000010 0000003C AAAAAAAAAAAAAAAA
    00 000010 FFFFFFFF FFFFFFFFFFFFFFFF
    80 00000C 00000040 BBBBBBBB";

/// The address of the 32-bit zone.
pub const BASE_32: u32 = 0x2000;

/// The same blocks in a zone of 32 bits, the locked one with 14 bytes.
pub const ZONE_32: &str =
    "00002090 00000000 00002048 00000010 00000000 0004 0000 0000 0000 0000 0000 0000 0000
    00000000 00000000 00000000 00000000
    40 00 00 00 0000001C 00002000 0000205C 0000208C 0000204C 00000000
    80 80 00 06 00000020 00000040 AAAAAAAAAAAAAAAAAAAAAAAAAAAAAAAAAAAAAAAA
    00 00 00 00 00000010 FFFFFFFF FFFFFFFF
    80 60 00 00 00000010 00000044 BBBBBBBB";

/// Returns the bytes that hexadecimal digits spell, with blanks between them.
pub fn bytes_of(alloc: Global, digits: &str) -> Result<Vec<u8>> {
    let mut text = String::new(alloc);
    for part in digits.split_whitespace() {
        text.push_str(part)?;
    }
    Ok(hex::decode(alloc, text.as_str())?)
}

/// Returns bytes of which those at an offset are others.
pub fn changed(alloc: Global, digits: &str, at: usize, new: &str) -> Result<Vec<u8>> {
    let mut bytes = bytes_of(alloc, digits)?;
    let new = bytes_of(alloc, new)?;
    for (i, byte) in new.as_slice().iter().enumerate() {
        let place = at.checked_add(i).context("a place")?;
        *bytes.get_mut(place).context("a byte")? = *byte;
    }
    Ok(bytes)
}
