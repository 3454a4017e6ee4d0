//! MacBinary files.

ghost use Rattle.std.specs.Prelude.{◌≡◌, ◌+◌, ◌*◌, ◌≤◌, ◌<◌, ◌^◌, ◌==◌, length, IfOk, IfErr, Ok};
ghost use Rattle.std.specs.Prelude.{Err, IsTrue};
ghost use Rattle.std.specs.List.{list_all};
ghost use Rattle.fork_wrappers.specs.MacBinary.{is_header, is_first, is_second, is_third, padded};
ghost use Rattle.fork_wrappers.specs.MacBinary.{data_place, fork_place, fork_behind, checked_fork};
ghost use Rattle.fork_wrappers.specs.MacBinary.{is_old_header, is_printable, name, greatest_length};

use crate::fault::MacBinaryFault;
use crate::numbers::{byte, half, part_of, word};
use checksums::checksum_of;

/// Returns whether bytes begin as every MacBinary header does.
fn begins_a_header(bytes: &[u8]) -> bool
    ensures { result ≡ is_header bytes.now }
{
    128 <= bytes.len()
        && byte(bytes, 0) == 0
        && byte(bytes, 74) == 0
        && byte(bytes, 82) == 0
        && 1 <= byte(bytes, 1)
        && byte(bytes, 1) <= 63
}

/// Returns whether bytes begin with a header of MacBinary III.
pub fn is_third_file(bytes: &[u8]) -> bool
    ensures { result ≡ is_third bytes.now }
{
    begins_a_header(bytes) && word(bytes, 102) == 0x6D42494E
}

/// Returns whether bytes begin with a header of MacBinary II.
pub fn is_second_file(bytes: &[u8]) -> bool
    ensures { result ≡ is_second bytes.now }
{
    begins_a_header(bytes) && 129 <= byte(bytes, 122) && 129 <= byte(bytes, 123)
}

/// Returns whether bytes are all 0.
fn are_zero(bytes: &[u8]) -> bool
    ensures { result ≡ list_all (λ byte. byte == 0) bytes.now }
{
    bytes.iter().all(|byte| *byte == 0)
}

/// Returns whether bytes begin with a header that may be one of MacBinary I.
fn has_old_header(bytes: &[u8]) -> bool
    ensures old { result ≡ is_old_header bytes.now }
    ensures header { IsTrue result → IsTrue (is_header bytes.now) }
{
    begins_a_header(bytes)
        && are_zero(part_of(bytes, 101, 25))
        && word(bytes, 83) <= 0x7FFFFF
        && word(bytes, 87) <= 0x7FFFFF
}

/// Returns whether a character can be printed.
fn can_print(character: u8) -> bool
    ensures { result ≡ is_printable character }
{
    32 <= character && character != 127
}

/// Returns whether the name in a header can be printed.
fn has_printable_name(bytes: &[u8]) -> bool
    requires { IsTrue (is_header bytes.now) }
    ensures { result ≡ list_all is_printable (name bytes.now) }
{
    part_of(bytes, 2, byte(bytes, 1))
        .iter()
        .all(|character| can_print(*character))
}

/// Returns a length rounded up to a multiple of 128.
pub fn padded_of(len: usize) -> usize
    requires { len < 2 ^ 32 }
    ensures padded { result ≡ padded len }
    ensures small { result < 2 ^ 33 }
{
    (len + 127) / 128 * 128
}

/// Returns where the resource fork begins.
pub fn fork_place_of(bytes: &[u8]) -> usize
    requires { 128 ≤ length bytes.now }
    ensures place { result ≡ fork_place bytes.now }
    ensures small { result < 2 ^ 34 }
{
    128 + padded_of(half(bytes, 120)) + padded_of(word(bytes, 83))
}

/// Returns the greatest length of a file with a MacBinary header.
fn greatest_length_of(bytes: &[u8]) -> usize
    requires { IsTrue (is_header bytes.now) }
    ensures { result ≡ greatest_length bytes.now }
{
    128 + padded_of(half(bytes, 120))
        + padded_of(word(bytes, 83))
        + padded_of(word(bytes, 87))
        + padded_of(half(bytes, 99))
}

/// Returns whether bytes are a file of MacBinary I.
pub fn is_first_file(bytes: &[u8]) -> bool
    ensures first { result ≡ is_first bytes.now }
    ensures header { IsTrue result → 128 ≤ length bytes.now }
{
    has_old_header(bytes)
        && has_printable_name(bytes)
        && 0 < word(bytes, 83) + word(bytes, 87)
        && bytes.len() <= greatest_length_of(bytes)
}

/// Returns the resource fork after a MacBinary header.
pub fn fork_behind_of<'b>(bytes: &'b [u8]) -> Result<&'b [u8], MacBinaryFault>
    requires { 128 ≤ length bytes.now }
    ensures fork { IfOk result (λ fork. fork_behind bytes.now ≡ Ok fork.now) }
    ensures fault { IfErr result (λ fault. fork_behind bytes.now ≡ Err fault) }
{
    let data_len = word(bytes, 83);
    let fork_len = word(bytes, 87);
    let data_place = 128 + padded_of(half(bytes, 120));
    if bytes.len() < data_place + data_len {
        return Err(MacBinaryFault::DataForkOutside);
    }
    if fork_len == 0 {
        return Ok(&bytes[0..0]);
    }
    let fork_place = data_place + padded_of(data_len);
    if bytes.len() < fork_place + fork_len {
        return Err(MacBinaryFault::ResourceForkOutside);
    }
    Ok(part_of(bytes, fork_place, fork_len))
}

/// Returns the resource fork after a header of MacBinary II or III.
pub fn checked_fork_of<'b>(bytes: &'b [u8]) -> Result<&'b [u8], MacBinaryFault>
    requires { 128 ≤ length bytes.now }
    ensures fork { IfOk result (λ fork. checked_fork bytes.now ≡ Ok fork.now) }
    ensures fault { IfErr result (λ fault. checked_fork bytes.now ≡ Err fault) }
{
    if half(bytes, 124) != checksum_of(part_of(bytes, 0, 124)) as usize {
        return Err(MacBinaryFault::WrongChecksum);
    }
    if 130 < byte(bytes, 123) {
        return Err(MacBinaryFault::LaterVersion);
    }
    fork_behind_of(bytes)
}
