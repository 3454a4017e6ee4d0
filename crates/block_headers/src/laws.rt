//! Laws of headers and slots: what was written is read back.

ghost use Rattle.std.specs.Prelude.{◌≡◌, ◌+◌, ◌%◌, ◌≤◌, ◌<◌, ◌^◌, length};
ghost use Rattle.memory_windows.specs.Writes.{written};
ghost use Rattle.block_headers.specs.Headers.{header_bytes};
ghost use Rattle.block_headers.specs.Words.{word};
ghost use Rattle.block_headers.specs.declared.header.TheConstants.{HEADER};
ghost use Rattle.block_headers.specs.declared.word.TheConstants.{UNIT};
ghost use Rattle.block_headers.specs.Slots.{IsSlotWord, slot_number};

use crate::header::{Header, read_header, write_header};
use crate::slot::{SlotWord, read_slot, write_slot};
use raw_region::Part;

/// Writes a header and no other byte, and reads the header at that place again: the header that is
/// read is the one that was written.
pub fn header_read_again(part: &mut Part, at: u32, header: Header) -> Header
    requires multiple { at % 4 ≡ 0 }
    requires inside { at + HEADER ≤ length part.old.bytes }
    requires size { header.size % UNIT ≡ 0 }
    requires small_size { header.size + 4 ≤ 2 ^ 32 }
    requires small_logical { header.logical < 2 ^ 32 }
    requires small_slot { header.slot < 2 ^ 32 }
    requires small_flags { header.flags < 2 ^ 32 }
    ensures same_home { part.new.home ≡ part.old.home }
    ensures same_place { part.new.at ≡ part.old.at }
    ensures same_length { length part.new.bytes ≡ length part.old.bytes }
    ensures bytes { part.new.bytes ≡ written at (header_bytes header) part.old.bytes }
    ensures again { result ≡ header }
{
    write_header(part, at, header);
    read_header(part, at)
}

/// Writes the word of a slot and no other byte, and reads the slot at that place again: the word
/// that is read is the one that was written.
pub fn slot_read_again(part: &mut Part, at: u32, slot: SlotWord) -> SlotWord
    requires multiple { at % 4 ≡ 0 }
    requires inside { at + 4 ≤ length part.old.bytes }
    requires slot { IsSlotWord slot }
    requires small { slot_number slot < 2 ^ 32 }
    ensures same_home { part.new.home ≡ part.old.home }
    ensures same_place { part.new.at ≡ part.old.at }
    ensures same_length { length part.new.bytes ≡ length part.old.bytes }
    ensures bytes { part.new.bytes ≡ written at (word (slot_number slot)) part.old.bytes }
    ensures again { result ≡ slot }
{
    write_slot(part, at, slot);
    read_slot(part, at)
}
