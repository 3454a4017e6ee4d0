//! Words, headers and slots of a zone, by places of 32 bits.

ghost use Rattle.std.specs.Prelude.{◌≡◌, ◌+◌, ◌%◌, ◌≤◌, ◌<◌, ◌^◌, length};
ghost use Rattle.memory_windows.specs.Writes.{written};
ghost use Rattle.block_headers.specs.Headers.{header_bytes, tag_number};
ghost use Rattle.block_headers.specs.Slots.{IsSlotNumber, IsSlotWord, slot_number};
ghost use Rattle.block_headers.specs.Words.{word, word_at};
ghost use Rattle.zone_bytes.specs.Beside.{KeepsPlace};

use block_headers::{Header, SlotWord};
use raw_region::Part;

/// Reads the word at a place.
pub fn read_word(part: &Part, at: u32) -> u32
    requires { (at % 4 ≡ 0) × (at + 4 ≤ length part.now.bytes) }
    ensures { result ≡ word_at at part.now.bytes }
{
    block_headers::read_word(part, at as usize)
}

/// Writes the word at a place.
pub fn write_word(part: &mut Part, at: u32, number: u32)
    requires { (at % 4 ≡ 0) × (at + 4 ≤ length part.old.bytes) }
    ensures same { KeepsPlace part.old part.new }
    ensures bytes { part.new.bytes ≡ written at (word number) part.old.bytes }
{
    block_headers::write_word(part, at as usize, number);
}

/// Reads the header at a place.
pub fn read_header(part: &Part, at: u32) -> Header
    requires within { (at % 4 ≡ 0) × (at + 16 ≤ length part.now.bytes) }
    requires fits { at + 16 < 2 ^ 32 }
    requires tag { word_at at part.now.bytes % 16 < 4 }
    ensures first { result.size + tag_number result.tag ≡ word_at at part.now.bytes }
    ensures size { result.size % 16 ≡ 0 }
    ensures logical { result.logical ≡ word_at (at + 4) part.now.bytes }
    ensures slot { result.slot ≡ word_at (at + 8) part.now.bytes }
    ensures flags { result.flags ≡ word_at (at + 12) part.now.bytes }
{
    block_headers::read_header(part, at)
}

/// Writes a header at a place.
pub fn write_header(part: &mut Part, at: u32, header: Header)
    requires within { (at % 4 ≡ 0) × (at + 16 ≤ length part.old.bytes) }
    requires fits { at + 16 < 2 ^ 32 }
    requires size { header.size % 16 ≡ 0 }
    ensures same { KeepsPlace part.old part.new }
    ensures bytes { part.new.bytes ≡ written at (header_bytes header) part.old.bytes }
{
    block_headers::write_header(part, at, header);
}

/// Reads the slot at a place.
pub fn read_slot(part: &Part, at: u32) -> SlotWord
    requires within { (at % 4 ≡ 0) × (at + 4 ≤ length part.now.bytes) }
    requires slot { IsSlotNumber (word_at at part.now.bytes) }
    ensures number { slot_number result ≡ word_at at part.now.bytes }
    ensures kept { IsSlotWord result }
{
    block_headers::read_slot(part, at)
}

/// Writes the slot at a place.
pub fn write_slot(part: &mut Part, at: u32, slot: SlotWord)
    requires within { (at % 4 ≡ 0) × (at + 4 ≤ length part.old.bytes) }
    requires slot { IsSlotWord slot }
    ensures same { KeepsPlace part.old part.new }
    ensures bytes { part.new.bytes ≡ written at (word (slot_number slot)) part.old.bytes }
{
    block_headers::write_slot(part, at, slot);
}
