//! Nonrelocatable blocks of a list, and new master pointer blocks.

ghost use Rattle.std.specs.Prelude.{◌≡◌, ◌+◌, ◌<◌, ◌^◌, ◌++◌, take, drop, ◌≤◌, vec_len, replicate};
ghost use Rattle.std.specs.Prelude.{IsTrue, IfSome, IsSomeAnd, OnOk, OnErr};
ghost use Rattle.std.specs.Vec.{vec_capacity};
ghost use Rattle.block_store.specs.Block.{Masters, sizes, is_nonrelocatable, is_room, tidy};
ghost use Rattle.block_store.specs.Room.{spot_at, filled};
ghost use Rattle.block_store.specs.Grow.{freed};
ghost use Rattle.list_store.specs.Lists.{block_of, blocks_of, freed_first};
ghost use Rattle.list_store.specs.declared.slots.SlotEntry.TheVariants.{Unused};

use crate::entries::{StoredBlock, entry_size, fill, tidy_entries};
use crate::slots::SlotEntry;
use block_store::{MASTERS_SIZE, SLOTS_A_BLOCK};
use std::alloc::AllocError;

/// Reports whether an entry is the nonrelocatable block of a place.
fn is_nonrelocatable_at(entry: &StoredBlock, place: u32) -> bool
    ensures { result ≡ is_nonrelocatable place (block_of entry.now) }
{
    match entry {
        StoredBlock::Nonrelocatable(own, _) => *own == place,
        _ => false,
    }
}

/// Makes the entry at an index a free block, where it is the nonrelocatable block of a place.
fn free_if(entries: &mut Vec<StoredBlock>, i: usize, place: u32)
    requires within { i < vec_len entries.old }
    requires fits { sizes (blocks_of entries.old.items) < 2 ^ 32 }
    ensures { blocks_of entries.new.items
        ≡ take i (blocks_of entries.old.items)
        ++ freed_first (is_nonrelocatable place) (drop i (blocks_of entries.old.items)) }
{
    let entry = &entries[i];
    if is_nonrelocatable_at(entry, place) {
        let bytes = entry_size(entry);
        entries[i] = StoredBlock::Free(bytes);
    }
}

/// Makes the nonrelocatable blocks of a place free blocks.
fn free_nonrelocatable(entries: &mut Vec<StoredBlock>, place: u32)
    requires { sizes (blocks_of entries.old.items) < 2 ^ 32 }
    ensures { blocks_of entries.new.items
        ≡ freed (is_nonrelocatable place) (blocks_of entries.old.items) }
{
    for i in 0..entries.len() {
        free_if(entries, i, place);
    }
}

/// Makes the nonrelocatable block at a place a free block, and joins it with its free neighbours.
pub fn free_place(entries: &mut Vec<StoredBlock>, place: u32)
    requires { sizes (blocks_of entries.old.items) < 2 ^ 32 }
    ensures { blocks_of entries.new.items
        ≡ tidy (freed (is_nonrelocatable place) (blocks_of entries.old.items)) }
{
    free_nonrelocatable(entries, place);
    tidy_entries(entries);
}

/// Adds the master pointers of a new master pointer block to the list, which has room for them.
fn add_slots(slots: &mut Vec<SlotEntry>)
    requires { vec_len slots.old + SLOTS_A_BLOCK ≤ vec_capacity slots.old }
    ensures { slots.new.items ≡ slots.old.items ++ replicate SLOTS_A_BLOCK Unused }
{
    match slots.resize(slots.len() + SLOTS_A_BLOCK, SlotEntry::Unused) {
        Ok(()) => {}
        Err(_) => unreachable!(),
    }
}

/// Puts a master pointer block at the lower end of the free block at a place, and adds its master
/// pointers to the list.
pub fn put_masters(
    entries: &mut Vec<StoredBlock>,
    slots: &mut Vec<SlotEntry>,
    place: u32,
) -> Result<(), AllocError>
    requires fits { sizes (blocks_of entries.old.items) < 2 ^ 32 }
    requires room { IsSomeAnd (spot_at place (blocks_of entries.old.items)) (λ s.
        IsTrue (is_room MASTERS_SIZE s.here)) }
    ensures ok { OnOk result (IfSome (spot_at place (blocks_of entries.old.items)) (λ s.
        blocks_of entries.new.items ≡ filled Masters s)) }
    ensures more { OnOk result (slots.new.items
        ≡ slots.old.items ++ replicate SLOTS_A_BLOCK Unused) }
    ensures err { OnErr result (entries.new.items ≡ entries.old.items) }
    ensures same { OnErr result (slots.new.items ≡ slots.old.items) }
{
    slots.reserve(SLOTS_A_BLOCK)?;
    fill(entries, place, StoredBlock::Masters)?;
    add_slots(slots);
    Ok(())
}
