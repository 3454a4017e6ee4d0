//! The slot of a master pointer.
ghost use Rattle.std.specs.Prelude.{◌≡◌, ◌+◌, ◌*◌, ◌%◌, ◌≤◌, ◌<◌, ◌^◌, length};
ghost use Rattle.memory_windows.specs.Writes.{written};
ghost use Rattle.block_headers.specs.Slots.{IsSlotWord, IsSlotNumber, slot_number};
ghost use Rattle.block_headers.specs.Words.{word, word_at};

use crate::word::{UNIT, read_word, write_word};
use raw_region::Part;

/// The word of the slot of an empty handle.
pub const EMPTY: u32 = 2;

/// The word of the slot of a resource's empty handle.
pub const EMPTY_RESOURCE: u32 = 18;

// The word of an unused slot that no other unused slot follows.
const LAST_UNUSED: u32 = 1;

/// The content of a slot (Inside Macintosh: Memory, chapter 1).
#[derive(Clone, Copy, Debug, PartialEq, Eq, Drop)]
pub enum SlotWord {
    /// The place of the slot's block, a multiple of `UNIT` that is not 0.
    Block(u32),
    /// NIL: the handle's block was purged or emptied. The flag says whether the block was a
    /// resource.
    Empty(bool),
    /// The slot is unused. It holds the place of the next unused slot, if another follows.
    Unused(Option<u32>),
}

fn number_of(slot: SlotWord) -> u32
    requires { IsSlotWord slot }
    ensures { result ≡ slot_number slot }
{
    match slot {
        SlotWord::Block(at) => at,
        SlotWord::Empty(true) => EMPTY_RESOURCE,
        SlotWord::Empty(false) => EMPTY,
        SlotWord::Unused(None) => LAST_UNUSED,
        SlotWord::Unused(Some(next)) => UNIT * next + LAST_UNUSED,
    }
}

fn slot_of(number: u32) -> SlotWord
    requires { IsSlotNumber number }
    ensures number { slot_number result ≡ number }
    ensures kept { IsSlotWord result }
{
    match number {
        LAST_UNUSED => SlotWord::Unused(None),
        EMPTY => SlotWord::Empty(false),
        EMPTY_RESOURCE => SlotWord::Empty(true),
        _ if number % UNIT == 0 => SlotWord::Block(number),
        _ => SlotWord::Unused(Some(number / UNIT)),
    }
}

/// Reads the slot at `at`.
pub fn read_slot(part: &Part, at: u32) -> SlotWord
    requires multiple { at % 4 ≡ 0 }
    requires inside { at + 4 ≤ length part.now.bytes }
    requires slot { IsSlotNumber (word_at at part.now.bytes) }
    ensures number { slot_number result ≡ word_at at part.now.bytes }
    ensures kept { IsSlotWord result }
{
    slot_of(read_word(part, at as usize))
}

/// Writes the slot at `at`. All other bytes keep their values.
pub fn write_slot(part: &mut Part, at: u32, slot: SlotWord)
    requires multiple { at % 4 ≡ 0 }
    requires inside { at + 4 ≤ length part.old.bytes }
    requires slot { IsSlotWord slot }
    ensures same_home { part.new.home ≡ part.old.home }
    ensures same_place { part.new.at ≡ part.old.at }
    ensures same_length { length part.new.bytes ≡ length part.old.bytes }
    ensures bytes { part.new.bytes ≡ written at (word (slot_number slot)) part.old.bytes }
{
    write_word(part, at as usize, number_of(slot));
}
