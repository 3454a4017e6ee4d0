//! The largest block that can be allocated, and compaction.

ghost use Rattle.std.specs.Prelude.{◌≡◌, ◌+◌, ◌<◌, IsSome, IfSome};
ghost use Rattle.mac_words.specs.Size.{phys as physical_size};
ghost use Rattle.block_store.specs.Room.{place};
ghost use Rattle.block_store.specs.Run.{runs};
ghost use Rattle.block_store.specs.Rest.{KeepsSlots, counted};
ghost use Rattle.block_store.specs.Compact.{has_room, runs_settled, compacted, lowered_in_runs};
ghost use Rattle.block_store.specs.Compact.{stretches};
ghost use Rattle.heap_calls.specs.Serving.{packing};
ghost use Rattle.heap_calls.specs.Inner.Given.{seen_in_run};
ghost use Rattle.heap_calls.specs.Answer.{max_block, compact_mem, noting};
ghost use Rattle.heap_calls.specs.Moves.{compact_mem_moves};
ghost use Rattle.heap_calls.specs.Searches.{compact_mem_searches};

use crate::heap::Heap;
use block_store::{BlockStore, HEADER_SIZE, Seen};
use mac_words::{OsErr, phys};

impl<S: BlockStore> Heap<S> {
    /// `MaxBlock`: returns the logical size in bytes of the largest block that could be allocated
    /// if all runs of movable blocks were compacted; nothing is moved.
    pub fn max_block(&mut self) -> u32
        ensures answer { noting max_block self.old.memory ≡ (Ok result, self.new.memory) }
        ensures room { 0 < result
            → IfSome (physical_size result) (λ p. IsSome (place p self.old.memory.heap.zone)) }
        ensures no_more { IfSome (physical_size (result + 1)) (λ p.
            place p self.old.memory.heap.zone ≡ None) }
        ensures lies { self.new.memory.window ≡ self.old.memory.window }
    {
        self.log.code = OsErr::NO_ERR;
        self.store.largest_run().saturating_sub(HEADER_SIZE)
    }

    /// `CompactMem`: compacts runs of movable blocks, lowest first, until a free block of `size`
    /// bytes of content stands or all runs are compacted, and returns the logical size in bytes of
    /// the largest block that can then be allocated without moving another. Blocks move by packing
    /// alone: none is raised, hoisted, moved to a free block or made.
    pub fn compact_mem(&mut self, size: u32) -> u32
        ensures answer { packing (compact_mem_moves size) (compact_mem_searches size)
            (compact_mem size) self.old.memory
            ≡ (Ok result, self.new.memory) }
        ensures placed { self.new.placings ≡ self.old.placings }
        ensures lies { self.new.memory.window ≡ self.old.memory.window }
    {
        let stretches = compact(&mut self.store, phys(size));
        let most = self.store.largest_free().saturating_sub(HEADER_SIZE);
        self.log.code = OsErr::NO_ERR;
        self.log.count(stretches + 1);
        most
    }
}

/// Compacts runs of movable blocks, lowest first, until a free block of `bytes` bytes stands or all
/// runs are compacted, and returns how many of the runs had a block. Where `bytes` is `None`, all
/// runs are compacted. Blocks move by packing alone: none is raised, hoisted, moved to a free block
/// or made, by the store's own count.
///
/// *Inside Macintosh: Memory*, chapter 1, "Heap Compaction".
pub fn compact<S: BlockStore>(store: &mut S, bytes: Option<u32>) -> u32
    ensures zone { S.zone store.new ≡ compacted bytes (S.zone store.old) }
    ensures moves { (S.rest store.new).moves ≡ counted (S.rest store.old).moves
        (lowered_in_runs (runs_settled bytes (S.zone store.old)) (runs (S.zone store.old))) }
    ensures placed { (S.rest store.new).placed ≡ (S.rest store.old).placed }
    ensures rest { KeepsSlots (S.rest store.old) (S.rest store.new) }
    ensures runs { result
        ≡ stretches (runs_settled bytes (S.zone store.old)) (runs (S.zone store.old)) }
{
    if !has_room(store, bytes) {
        if let Some(stretches) = store.packed_runs() {
            return stretches;
        }
    }
    settle_runs(store, bytes)
}

/// Compacts runs, one after another, as `compact` does, whether blocks move or not.
fn settle_runs<S: BlockStore>(store: &mut S, bytes: Option<u32>) -> u32
    ensures zone { S.zone store.new ≡ compacted bytes (S.zone store.old) }
    ensures moves { (S.rest store.new).moves ≡ counted (S.rest store.old).moves
        (lowered_in_runs (runs_settled bytes (S.zone store.old)) (runs (S.zone store.old))) }
    ensures placed { (S.rest store.new).placed ≡ (S.rest store.old).placed }
    ensures rest { KeepsSlots (S.rest store.old) (S.rest store.new) }
    ensures runs { result
        ≡ stretches (runs_settled bytes (S.zone store.old)) (runs (S.zone store.old)) }
{
    let mut run = 0;
    let mut stretches = 0;
    while !has_room(store, bytes) {
        let above = store.next_run(run);
        stretches += u32::from(in_run(store.block_at(run)));
        store.settle(run);
        let Some(next) = above else {
            return stretches;
        };
        run = next;
    }
    stretches
}

/// Reports whether a block, as it is seen, belongs to a run of movable blocks: a free block or an
/// unlocked relocatable block.
fn in_run(seen: Option<Seen>) -> bool
    ensures { result ≡ seen_in_run seen }
{
    match seen {
        Some(Seen::Free(_)) => true,
        Some(Seen::Relocatable(_, flags, _)) => !flags.locked,
        _ => false,
    }
}

/// Reports whether a free block of `bytes` bytes stands; there is none where `bytes` is `None`.
pub fn has_room<S: BlockStore>(store: &S, bytes: Option<u32>) -> bool
    ensures { result ≡ has_room bytes (S.zone store.now) }
{
    match bytes {
        None => false,
        Some(bytes) => store.find_free(bytes).is_some(),
    }
}
