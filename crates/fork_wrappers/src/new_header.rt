//! MacBinary files with another resource fork.

ghost use Rattle.std.specs.Prelude.{◌≡◌, ◌+◌, ◌-◌, ◌≤◌, ◌<◌, ◌^◌, ◌++◌, length, IfOk, IfErr, OnOk};
ghost use Rattle.std.specs.Prelude.{Ok, IsTrue, drop, []};
ghost use Rattle.checksums.specs.Checksum.{checksum};
ghost use Rattle.fork_wrappers.specs.MacBinary.{padded, fork_place, fork_length};
ghost use Rattle.fork_wrappers.specs.Unwrapped.{is_mac_binary};
ghost use Rattle.fork_wrappers.specs.Rewrapped.{greatest_fork, new_fields, new_checksum, new_front};
ghost use Rattle.fork_wrappers.specs.Rewrapped.{with_padded, behind_header, Refuses};

use crate::fault::RewrapFault;
use crate::mac_binary::{fork_place_of, padded_of};
use crate::numbers::{bytes_between, bytes_from, part_of, put_half, put_word, put_zeros, word};
use crate::wrapping::Wrapping;
use checksums::checksum_of;
use std::alloc::{AllocError, Global};

/// Returns the greatest length of a resource fork of MacBinary.
fn greatest_fork_of(how: Wrapping) -> usize
    ensures greatest { result ≡ greatest_fork how }
    ensures small { result < 2 ^ 32 }
{
    match how {
        Wrapping::MacBinaryI => 0x7FFFFF,
        _ => 0xFFFFFFFF,
    }
}

/// Writes the first 124 bytes of the header, with another length of the resource fork.
fn put_fields(out: &mut Vec<u8>, file: &[u8], len: usize) -> Result<(), AllocError>
    requires header { 128 ≤ length file.now }
    requires small { len < 2 ^ 32 }
    ensures { OnOk result (out.new.items ≡ out.old.items ++ new_fields file.now len) }
{
    out.extend_from_slice(part_of(file, 0, 87))?;
    put_word(out, len as u32)?;
    out.extend_from_slice(part_of(file, 91, 33))?;
    Ok(())
}

/// Writes the checksum of the first 124 bytes, which stand there alone.
fn put_checksum(out: &mut Vec<u8>, how: Wrapping, file: &[u8]) -> Result<(), AllocError>
    requires header { 128 ≤ length file.now }
    ensures { OnOk result (out.new.items
        ≡ out.old.items ++ new_checksum how file.now out.old.items) }
{
    match how {
        Wrapping::MacBinaryI => {
            out.extend_from_slice(part_of(file, 124, 2))?;
        }
        _ => {
            let sum = checksum_of(out.as_slice());
            put_half(out, sum)?;
        }
    }
    Ok(())
}

/// Writes the file up to its resource fork.
fn put_front(out: &mut Vec<u8>, how: Wrapping, file: &[u8], len: usize) -> Result<(), AllocError>
    requires header { 128 ≤ length file.now }
    requires small { len < 2 ^ 32 }
    requires empty { out.old.items ≡ [] }
    ensures { OnOk result (out.new.items ≡ new_front how file.now len) }
{
    let place = fork_place_of(file);
    put_fields(out, file, len)?;
    put_checksum(out, how, file)?;
    out.extend_from_slice(bytes_between(file, 126, place))?;
    put_zeros(out, place.saturating_sub(file.len()))?;
    Ok(())
}

/// Writes the file with another fork.
fn put_padded(out: &mut Vec<u8>, how: Wrapping, file: &[u8], fork: &[u8]) -> Result<(), AllocError>
    requires header { 128 ≤ length file.now }
    requires small { length fork.now < 2 ^ 32 }
    requires empty { out.old.items ≡ [] }
    ensures { OnOk result (out.new.items ≡ with_padded how file.now fork.now) }
{
    let old_end = fork_place_of(file) + padded_of(word(file, 87));
    put_front(out, how, file, fork.len())?;
    out.extend_from_slice(fork)?;
    put_zeros(out, padded_of(fork.len()) - fork.len())?;
    out.extend_from_slice(bytes_from(file, old_end))?;
    Ok(())
}

/// Returns a file of MacBinary with another fork.
pub fn with_padded_of(
    alloc: Global,
    how: Wrapping,
    file: &[u8],
    fork: &[u8],
) -> Result<Vec<u8>, RewrapFault>
    requires header { 128 ≤ length file.now }
    ensures made { IfOk result (λ new. behind_header how file.now fork.now ≡ Ok new.items) }
    ensures fault { IfErr result (λ why. Refuses why (behind_header how file.now fork.now)) }
{
    if greatest_fork_of(how) < fork.len() {
        return Err(RewrapFault::TooLong);
    }
    let place = fork_place_of(file);
    let rest = bytes_from(file, place + padded_of(word(file, 87))).len();
    let len = place + padded_of(fork.len()) + rest;
    let mut out = Vec::with_capacity(alloc, len)?;
    put_padded(&mut out, how, file, fork)?;
    Ok(out)
}
