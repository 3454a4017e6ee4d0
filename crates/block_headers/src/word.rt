//! A word of a zone.
ghost use Rattle.std.specs.Prelude.{◌≡◌, ◌+◌, ◌%◌, ◌≤◌, length};
ghost use Rattle.memory_windows.specs.Writes.{written, piece};
ghost use Rattle.block_headers.specs.Words.{word, word_at};

use byteorder::{BigEndian, ByteOrder};
use raw_region::Part;

/// The places and physical sizes of blocks are multiples of this.
pub const UNIT: u32 = 16;

/// Reads the word at `at`, which is a multiple of 4.
pub fn read_word(part: &Part, at: usize) -> u32
    requires multiple { at % 4 ≡ 0 }
    requires inside { at + 4 ≤ length part.now.bytes }
    ensures { result ≡ word_at at part.now.bytes }
{
    u32::from_be_bytes(part.word(at))
}

/// Returns the four bytes at `at` of some bytes.
fn four_at(bytes: &[u8], at: usize) -> [u8; 4]
    requires { at + 4 ≤ length bytes.now }
    ensures { result ≡ piece at 4 bytes.now }
{
    match bytes[at..at + 4].split_first_chunk::<4>() {
        Some((word, _)) => *word,
        None => [0; 4],
    }
}

/// Reads the word at `at` of some bytes.
pub(crate) fn word_in(bytes: &[u8], at: usize) -> u32
    requires { at + 4 ≤ length bytes.now }
    ensures { result ≡ word_at at bytes.now }
{
    u32::from_be_bytes(four_at(bytes, at))
}

/// Writes the word at `at`, which is a multiple of 4.
pub fn write_word(part: &mut Part, at: usize, number: u32)
    requires multiple { at % 4 ≡ 0 }
    requires inside { at + 4 ≤ length part.old.bytes }
    ensures same_home { part.new.home ≡ part.old.home }
    ensures same_place { part.new.at ≡ part.old.at }
    ensures same_length { length part.new.bytes ≡ length part.old.bytes }
    ensures bytes { part.new.bytes ≡ written at (word number) part.old.bytes }
{
    let mut bytes = [0; 4];
    BigEndian::write_u32(&mut bytes, number);
    part.put_word(at, bytes);
}
