//! The header of a block.
ghost use Rattle.std.specs.Prelude.{◌≡◌, ◌+◌, ◌-◌, ◌%◌, ◌≤◌, ◌<◌, ◌^◌, length};
ghost use Rattle.memory_windows.specs.Writes.{written, piece};
ghost use Rattle.block_headers.specs.Headers.{header_bytes, tag_number};
ghost use Rattle.block_headers.specs.Words.{word_at};
ghost use Rattle.block_headers.specs.declared.word.TheConstants.{UNIT};

use crate::word::{UNIT, word_in, write_word};
use raw_region::Part;

/// The number of bytes of a header.
pub const HEADER: u32 = 16;

/// The flag of a locked block in a header.
pub const LOCKED: u32 = 128;

/// The flag of a purgeable block in a header.
pub const PURGEABLE: u32 = 64;

/// The flag of a resource's block in a header.
pub const RESOURCE: u32 = 32;

/// The kind of a block, as its header says.
#[derive(Clone, Copy, Debug, PartialEq, Eq, Drop)]
pub enum Tag {
    /// A free block.
    Free,
    /// A nonrelocatable block.
    Nonrelocatable,
    /// A master pointer block.
    Masters,
    /// A relocatable block.
    Relocatable,
}

/// The four words that precede the content of a block (Inside Macintosh: Memory, chapter 2, "Block
/// Headers").
#[derive(Clone, Copy, Debug, PartialEq, Eq, Drop)]
pub struct Header {
    /// The physical size: all bytes of the block, including its header. It is a multiple of `UNIT`.
    pub size: u32,
    pub tag: Tag,
    /// The logical size: the number of bytes of content that were asked for, or, of a master
    /// pointer block, the bytes of its slots.
    pub logical: u32,
    /// The place of the slot of a relocatable block, or 0.
    pub slot: u32,
    /// The sum of the flags of a relocatable block (`LOCKED`, `PURGEABLE`, `RESOURCE`), or 0.
    pub flags: u32,
}

fn tag_code(tag: Tag) -> u32
    ensures { result ≡ tag_number tag }
{
    match tag {
        Tag::Free => 0,
        Tag::Nonrelocatable => 1,
        Tag::Masters => 2,
        Tag::Relocatable => 3,
    }
}

fn tag_of(code: u32) -> Tag
    requires { code < 4 }
    ensures { tag_number result ≡ code }
{
    match code % 4 {
        0 => Tag::Free,
        1 => Tag::Nonrelocatable,
        2 => Tag::Masters,
        _ => Tag::Relocatable,
    }
}

/// Returns the bytes of the header at `at`.
fn bytes_at(part: &Part, at: usize) -> &[u8]
    requires { at + HEADER ≤ length part.now.bytes }
    ensures bytes { result.now ≡ piece at HEADER part.now.bytes }
    ensures count { length result.now ≡ HEADER }
{
    &part.bytes()[at..at + HEADER as usize]
}

/// Reads the header of the block at `at`. Of the header of a free block, only the first word has a
/// meaning.
pub fn read_header(part: &Part, at: u32) -> Header
    requires multiple { at % 4 ≡ 0 }
    requires inside { at + HEADER ≤ length part.now.bytes }
    requires tag { word_at at part.now.bytes % UNIT < 4 }
    ensures first { result.size + tag_number result.tag ≡ word_at at part.now.bytes }
    ensures size { result.size % UNIT ≡ 0 }
    ensures logical { result.logical ≡ word_at (at + 4) part.now.bytes }
    ensures slot { result.slot ≡ word_at (at + 8) part.now.bytes }
    ensures flags { result.flags ≡ word_at (at + 12) part.now.bytes }
{
    let words = bytes_at(part, at as usize);
    let first = word_in(words, 0);
    let logical = word_in(words, 4);
    let slot = word_in(words, 8);
    let flags = word_in(words, 12);
    Header {
        size: first - first % UNIT,
        tag: tag_of(first % UNIT),
        logical,
        slot,
        flags,
    }
}

/// Writes the header of the block at `at`. All other bytes keep their values.
pub fn write_header(part: &mut Part, at: u32, header: Header)
    requires multiple { at % 4 ≡ 0 }
    requires inside { at + HEADER ≤ length part.old.bytes }
    requires size { header.size % UNIT ≡ 0 }
    ensures same_home { part.new.home ≡ part.old.home }
    ensures same_place { part.new.at ≡ part.old.at }
    ensures same_length { length part.new.bytes ≡ length part.old.bytes }
    ensures bytes { part.new.bytes ≡ written at (header_bytes header) part.old.bytes }
{
    let at = at as usize;
    write_word(part, at, header.size + tag_code(header.tag));
    write_word(part, at + 4, header.logical);
    write_word(part, at + 8, header.slot);
    write_word(part, at + 12, header.flags);
}
