//! A master pointer block is put into a free block.

ghost use Rattle.std.specs.Prelude.{◌≡◌, ◌+◌, ◌%◌, ◌≤◌, ◌<◌, ◌++◌, ℕ, IsTrue, IsSomeAnd, IfSome};
ghost use Rattle.std.specs.Prelude.{length};
ghost use Rattle.block_store.specs.Block.{Masters, is_room};
ghost use Rattle.block_store.specs.Room.{spot_at, filled};
ghost use Rattle.block_store.specs.declared.measures.TheConstants.{MASTERS_SIZE, GREATEST_ZONE};
ghost use Rattle.zone_bytes.specs.Decode.{zone_in};
ghost use Rattle.zone_bytes.specs.Table.{Lays, slot_in};
ghost use Rattle.zone_bytes.specs.Lawful.{IsSound};
ghost use Rattle.zone_bytes.specs.Splicing.{SameOutside};
ghost use Rattle.zone_bytes.specs.Mastering.{slots_at, with_slots, Thread, HasMasters};
ghost use Rattle.zone_bytes.specs.Beside.{KeepsPlace};

use crate::placing::{lay_block, size_at};
use crate::slots::unused_before;
use crate::words::write_slot;
use block_headers::{Header, Tag};
use block_store::{HEADER_SIZE, MASTERS_SIZE};
use raw_region::Part;

/// Chains the 64 slots of the master pointer block at `place`: each holds the place of the next
/// one, and the last one holds the place `first`.
fn thread_slots(part: &mut Part, place: u32, first: u32)
    requires even { place % 4 ≡ 0 }
    requires inside { place + MASTERS_SIZE ≤ length part.old.bytes }
    requires small { length part.old.bytes ≤ GREATEST_ZONE }
    requires first { first < GREATEST_ZONE }
    ensures same { KeepsPlace part.old part.new }
    ensures thread { Thread first part.new.bytes (slots_at place) }
    ensures outside { SameOutside (place + 16)
        (place + MASTERS_SIZE) part.old.bytes part.new.bytes }
{
    let mut slot = place + MASTERS_SIZE - 4;
    write_slot(part, slot, unused_before(first));
    while place + HEADER_SIZE < slot {
        write_slot(part, slot - 4, unused_before(slot));
        slot -= 4;
    }
}

/// Lays a master pointer block at `place`, whose slots are chained and end with `first`. The rest
/// of the `size` bytes there becomes a free block.
pub(crate) fn lay_masters(part: &mut Part, place: u32, size: u32, first: u32)
    requires whole { (place % 16 ≡ 0) × (size % 16 ≡ 0) }
    requires room { (MASTERS_SIZE ≤ size) × (place + size ≤ length part.old.bytes) }
    requires small { length part.old.bytes ≤ GREATEST_ZONE }
    requires first { first < GREATEST_ZONE }
    ensures same { KeepsPlace part.old part.new }
    ensures masters { HasMasters place size first part.old.bytes part.new.bytes }
{
    let slots = MASTERS_SIZE - HEADER_SIZE;
    let header = Header {
        size: MASTERS_SIZE,
        tag: Tag::Masters,
        logical: slots,
        slot: 0,
        flags: 0,
    };
    lay_block(part, place, place + size, header, slots);
    thread_slots(part, place, first);
}

/// Puts a master pointer block of 64 slots at the lower end of the free block at `place`. The new
/// slots precede the unused ones, of which `first` is the first.
///
/// *Inside Macintosh: Memory*, chapter 2, "Allocating Master Pointers".
pub fn add_masters(part: &mut Part, place: u32, first: u32)
    requires sound { (unused : ℕ) × IsSound part.old.bytes first unused }
    requires room { IsSomeAnd (spot_at place (zone_in part.old.bytes)) (λ s.
        IsTrue (is_room MASTERS_SIZE s.here)) }
    ensures same { KeepsPlace part.old part.new }
    ensures lays { (unused : ℕ) (i : IsSound part.old.bytes first unused) →
        IfSome (spot_at place (zone_in part.old.bytes)) (λ s. Lays part.new.bytes (filled Masters s)
        (with_slots place (slot_in part.old.bytes)) (slots_at place ++ i.unused)) }
{
    let size = size_at(part, place);
    lay_masters(part, place, size, first);
}
