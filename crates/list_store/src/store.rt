//! A store that keeps its blocks in a list.

ghost use Rattle.std.specs.Prelude.{◌≡◌, ℕ, ◌*◌, ◌≤◌, ◌<◌, ◌%◌, length, false, IfOk, IsTrue};
ghost use denote.RawPtr.{null_ptr};
ghost use Rattle.std.specs.Option.{option_map};
ghost use Rattle.block_store.specs.Block.{sizes, free_sum, count, is_masters, is_relocatable, tidy};
ghost use Rattle.block_store.specs.Block.{fresh};
ghost use Rattle.block_store.specs.Run.{has, run_at};
ghost use Rattle.block_store.specs.Find.{IsEdge};
ghost use Rattle.block_store.specs.Slot.{is_used};
ghost use Rattle.block_store.specs.Compact.{Aligned, Aligned-prop, Placed, Placed-prop};
ghost use Rattle.list_store.specs.Lists.{blocks_of, slots_of};
ghost use Rattle.block_store.specs.declared.measures.TheConstants.{GREATEST_ZONE, SLOTS_A_BLOCK};

use crate::copying::copy_at;
use crate::entries::{
    StoredBlock, fill, free_slot, free_total, index_at, tidy_entries, write_at, zeros,
};
use crate::nonrelocatable_blocks::{free_place, put_masters};
use crate::packing::{hoist_slot, raise_run, settle_run};
use crate::purging::{flag_at, purge_above, purge_entries};
use crate::sizing::{move_slot, resize_at};
use crate::slots::{SlotEntry, first_unused, has_flag};
use crate::walk::{
    fewest_over, fewest_over_block, has_free_above, look_at, purgeable_above, run_above, walk_over,
};
use block_store::{
    BlockStore, Flags, GREATEST_ZONE, LEAST_ZONE, MASTERS_SIZE, SLOTS_A_BLOCK, Seen, Sparing, UNIT,
    find_free_in, find_run_in, free_after_in, largest_after_in, largest_free_in, largest_run_in,
    next_purgeable_in, packed_runs_in, place_in, purgeable_in, room_above_in, run_of_in,
};
use std::alloc::{AllocError, Global};

/// A store that keeps its blocks in a list, from bottom to top, and its master pointers in another
/// list, in which a master pointer's number is its index.
#[derive(Drop)]
pub struct ListStore {
    alloc: Global,
    bytes: u32,
    moves: u64,
    placings: u64,
    blocks: Vec<StoredBlock>,
    slots: Vec<SlotEntry>,
    ghost covered: { sizes (blocks_of blocks.items) ≡ bytes },
    ghost small: { bytes ≤ GREATEST_ZONE },
    ghost masters: { length slots.items
        ≡ SLOTS_A_BLOCK * count is_masters (blocks_of blocks.items) },
    ghost no_block: { (number : ℕ) → is_used (slots_of slots.items number) ≡ false
        → has (is_relocatable number) (blocks_of blocks.items) ≡ false },
    ghost once: { (number : ℕ) → count (is_relocatable number) (blocks_of blocks.items) ≤ 1 },
    ghost tidied: { tidy (blocks_of blocks.items) ≡ blocks_of blocks.items },
    ghost aligned: { Aligned
        (blocks_of blocks.items) } by { Aligned-prop (blocks_of blocks.items) },
    ghost placed: { Placed 0
        (blocks_of blocks.items) } by { Placed-prop 0 (blocks_of blocks.items) },
}

impl ListStore {
    /// Makes a fresh zone of `len` bytes: a master pointer block of 64 master pointers, and one
    /// free block of the other bytes.
    ///
    /// *Inside Macintosh: Memory*, chapter 2, "Heap Zones".
    pub fn new(alloc: Global, len: u32) -> Result<ListStore, AllocError>
        requires even { len % UNIT ≡ 0 }
        requires low { LEAST_ZONE ≤ len }
        requires high { len ≤ GREATEST_ZONE }
        ensures zone { IfOk result (λ s. ⟦<ListStore as BlockStore>⟧.zone s ≡ fresh len) }
        ensures no_handle { IfOk result (λ s.
            (number : ℕ) → is_used ((⟦<ListStore as BlockStore>⟧.rest s).slots number) ≡ false) }
        ensures unused { IfOk result (λ s. (⟦<ListStore as BlockStore>⟧.rest s).unused
            ≡ SLOTS_A_BLOCK) }
        ensures all { IfOk result (λ s. (⟦<ListStore as BlockStore>⟧.rest s).all ≡ SLOTS_A_BLOCK) }
        ensures moves { IfOk result (λ s. (⟦<ListStore as BlockStore>⟧.rest s).moves ≡ 0) }
        ensures placed { IfOk result (λ s. (⟦<ListStore as BlockStore>⟧.rest s).placed ≡ 0) }
        ensures window { IfOk result (λ s. (⟦<ListStore as BlockStore>⟧.rest s).window
            ≡ record { home = null_ptr; window = record { at = 0; len = len } }) }
    {
        let mut blocks = Vec::new(alloc);
        blocks.push(StoredBlock::Masters)?;
        blocks.push(StoredBlock::Free(len - MASTERS_SIZE))?;
        let slots = vec![in alloc; SlotEntry::Unused; SLOTS_A_BLOCK]?;
        Ok(ListStore {
            alloc,
            bytes: len,
            moves: 0,
            placings: 0,
            blocks,
            slots,
        })
    }
}

impl BlockStore for ListStore {
    ghost use Rattle.std.specs.Prelude.{true, count_by};
    ghost use denote.RawPtr.{null_ptr};
    ghost use Rattle.list_store.specs.Lists.{blocks_of, slots_of, is_unused};
    ghost use Rattle.list_store.specs.Laws.{store-small, store-masters, store-no_block, store-once};
    ghost use Rattle.list_store.specs.Laws.{store-tidied, store-aligned, store-placed};

    const TAKES_HOST: bool = true;

    ghost TAKES_HOST = { true };

    ghost zone = { λ s. blocks_of s.blocks.items };

    ghost rest = { λ s. record {
      slots = slots_of s.slots.items;
      unused = count_by is_unused s.slots.items;
      all = length s.slots.items;
      moves = s.moves;
      placed = s.placings;
      window = record { home = null_ptr; window = record { at = 0; len = s.bytes } };
    } };

    fn len(&self) -> u32 {
        self.bytes
    }

    fn free_bytes(&self) -> u32 {
        free_total(&self.blocks)
    }

    fn moves(&self) -> u64 {
        self.moves
    }

    fn placings(&self) -> u64 {
        self.placings
    }

    fn block_at(&self, place: u32) -> Option<Seen> {
        look_at(&self.blocks, place)
    }

    fn largest_free(&self) -> u32 {
        largest_free_in(&mut walk_over(&self.blocks))
    }

    fn largest_run(&self) -> u32 {
        largest_run_in(&mut walk_over(&self.blocks))
    }

    fn place_of(&self, number: u32) -> Option<u32> {
        place_in(&mut walk_over(&self.blocks), number)
    }

    fn find_free(&self, bytes: u32) -> Option<u32> {
        find_free_in(&mut walk_over(&self.blocks), bytes)
    }

    fn next_purgeable(&self, sparing: Sparing) -> Option<u32> {
        next_purgeable_in(&mut walk_over(&self.blocks), 0, sparing)
    }

    fn purgeable(&self, sparing: Sparing) -> u32 {
        purgeable_in(&mut walk_over(&self.blocks), sparing)
    }

    fn room_above(&self, number: u32, bytes: u32) -> bool {
        room_above_in(&mut walk_over(&self.blocks), number, bytes)
    }

    fn free_if_purged(&self) -> u32 {
        let most = self.purgeable(Sparing::Nothing);
        free_after_in(&mut walk_over(&self.blocks), most, Sparing::Nothing)
    }

    fn largest_after(&self, purges: u32) -> u32 {
        largest_after_in(&mut walk_over(&self.blocks), purges, Sparing::Nothing)
    }

    fn purge(&mut self, purges: u32, sparing: Sparing) {
        purge_entries(&mut self.blocks, purges, sparing);
    }

    fn purge_after(&mut self, place: u32, purges: u32, sparing: Sparing) {
        purge_above(&mut self.blocks, place, purges, sparing);
    }

    fn find_run(&self, bytes: u32) -> Option<u32> {
        find_run_in(&mut walk_over(&self.blocks), bytes, 0, Sparing::Nothing)
    }

    fn fewest_purges(&self, bytes: u32, sparing: Sparing) -> Option<u32> {
        fewest_over(&self.blocks, bytes, sparing)
    }

    fn next_run(&self, run: u32) -> Option<u32> {
        run_above(&self.blocks, run)
    }

    fn packed_runs(&self) -> Option<u32> {
        packed_runs_in(&mut walk_over(&self.blocks))
    }

    fn run_of(&self, number: u32, bytes: u32) -> Option<u32> {
        run_of_in(&mut walk_over(&self.blocks), number, bytes)
    }

    fn fewest_for_block(&self, number: u32, bytes: u32, sparing: Sparing) -> Option<u32> {
        fewest_over_block(&self.blocks, number, bytes, sparing)
    }

    fn run_after(&self, place: u32, bytes: u32, purges: u32, sparing: Sparing) -> bool {
        has_free_above(&self.blocks, place, bytes, purges, sparing)
    }

    fn purgeable_after(&self, place: u32, sparing: Sparing) -> u32 {
        purgeable_above(&self.blocks, place, sparing)
    }

    fn settle(&mut self, run: u32) {
        let falls = settle_run(&mut self.blocks, run);
        self.moves = self.moves.saturating_add(falls);
    }

    fn raise(&mut self, run: u32, bytes: u32) -> Result<(), AllocError> {
        raise_run(&mut self.blocks, run, bytes)?;
        self.placings = self.placings.saturating_add(1);
        Ok(())
    }

    fn hoist(&mut self, run: u32, number: u32) {
        hoist_slot(&mut self.blocks, run, number);
        self.placings = self.placings.saturating_add(1);
    }

    fn carve(&mut self, place: u32, number: u32, size: u32) -> Result<(), AllocError> {
        let content = zeros(self.alloc, size as usize)?;
        let new = StoredBlock::Relocatable(number, Flags::NONE, content);
        fill(&mut self.blocks, place, new)?;
        self.placings = self.placings.saturating_add(1);
        Ok(())
    }

    fn carve_nonrelocatable(&mut self, place: u32, size: u32) -> Result<(), AllocError> {
        let content = zeros(self.alloc, size as usize)?;
        let new = StoredBlock::Nonrelocatable(place, content);
        fill(&mut self.blocks, place, new)?;
        Ok(())
    }

    fn add_masters(&mut self, place: u32) -> Result<(), AllocError> {
        put_masters(&mut self.blocks, &mut self.slots, place)?;
        Ok(())
    }

    fn free_at(&mut self, place: u32) {
        free_place(&mut self.blocks, place);
    }

    fn release(&mut self, number: u32) {
        free_slot(&mut self.blocks, number);
        tidy_entries(&mut self.blocks);
    }

    fn set_flags(&mut self, place: u32, flags: Flags) {
        flag_at(&mut self.blocks, place, flags);
    }

    fn resize(&mut self, place: u32, bytes: u32) -> Result<(), AllocError> {
        resize_at(self.alloc, &mut self.blocks, place, bytes as usize)
    }

    fn move_to(&mut self, place: u32, number: u32, bytes: u32) -> Result<(), AllocError> {
        move_slot(self.alloc, &mut self.blocks, place, number, bytes as usize)?;
        self.placings = self.placings.saturating_add(1);
        Ok(())
    }

    fn take_slot(&mut self) -> Option<u32> {
        let i = first_unused(&self.slots)?;
        self.slots[i] = SlotEntry::Used(false);
        Some(i as u32)
    }

    fn give_slot(&mut self, number: u32) {
        self.slots[number as usize] = SlotEntry::Unused;
    }

    fn is_resource(&self, number: u32) -> bool {
        has_flag(&self.slots, number)
    }

    fn set_resource(&mut self, number: u32, resource: bool) {
        self.slots[number as usize] = SlotEntry::Used(resource);
    }

    fn bytes(&self, place: u32) -> &[u8] {
        let Some(i) = index_at(&self.blocks, place) else {
            unreachable!()
        };
        match &self.blocks[i] {
            StoredBlock::Nonrelocatable(_, content) => content.as_slice(),
            StoredBlock::Relocatable(_, _, content) => content.as_slice(),
            _ => &[],
        }
    }

    fn write(&mut self, place: u32, from: u32, bytes: &[u8]) {
        write_at(&mut self.blocks, place, from, bytes);
    }

    fn copy(&mut self, source: u32, start: u32, bytes: u32, place: u32, from: u32) {
        copy_at(&mut self.blocks, source, start, bytes, place, from);
    }

    ghost small = { store-small };

    ghost masters = { store-masters };

    ghost no_block = { store-no_block };

    ghost once = { store-once };

    ghost tidied = { store-tidied };

    ghost aligned = { store-aligned };

    ghost placed = { store-placed };
}
