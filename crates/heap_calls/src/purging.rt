//! Purging.

ghost use Rattle.std.specs.Prelude.{false, ◌≡◌, ◌≢◌, ◌<◌, true, Err, OnOk, OnErr, IsErr, IfSome};
ghost use Rattle.std.specs.Prelude.{IsOk, None};
ghost use Rattle.block_store.specs.Block.{free_sum};
ghost use Rattle.block_store.specs.Compact.{has_room};
ghost use Rattle.block_store.specs.Sparing.{purged, most_purges};
ghost use Rattle.block_store.specs.declared.sparing.Sparing.TheVariants.{Nothing};
ghost use Rattle.heap_calls.specs.Inner.SearchLaws.{room-ends};
ghost use Rattle.block_store.proofs.Purged.Rising.{has_room-rises};
ghost use Rattle.heap_calls.specs.Inner.Given.{IsAnswer, KeepsNames};
ghost use Rattle.heap_calls.specs.Answer.{noting, silent, searching, moving};
ghost use Rattle.heap_calls.specs.Purging.{blocks_purged, purged_all, purge_mem, purge_space};
ghost use Rattle.heap_calls.specs.Purging.{max_mem};
ghost use Rattle.heap_calls.specs.Gone.{Tells, TellsNothing, IsIdle, purge_mem_gone, max_mem_gone};
ghost use Rattle.heap_calls.specs.Gone.{Hears};
ghost use Rattle.heap_calls.specs.Moves.{max_mem_moves};
ghost use Rattle.heap_calls.specs.Searches.{purge_mem_searches};
ghost use Rattle.heap_calls.specs.Left.{Stops};

use crate::compaction::{compact, has_room};
use crate::growing_in_place::Grown;
use crate::heap::Heap;
use crate::least::{Sought, any_goes, least_search};
use crate::refusal::Refusal;
use crate::sink::PurgeSink;
use crate::telling::purge_telling;
use block_store::{BlockStore, GREATEST_ZONE, HEADER_SIZE, Sparing};
use mac_words::{OsErr, phys};
use std::alloc::AllocError;

/// What could be allocated if every block that may be purged were purged.
#[derive(Clone, Copy, Debug, PartialEq, Eq)]
pub struct Space {
    /// The number of free bytes of the zone, the headers of the free blocks included.
    pub total: u32,
    /// The logical size in bytes of the largest block that could be allocated without moving
    /// another.
    pub contiguous: u32,
}

impl<S: BlockStore> Heap<S> {
    /// `PurgeMem`: purges blocks, lowest first, until a block of `size` bytes of content has room.
    /// Nothing is moved. Returns -108 (memFullErr) where every block that may be purged is purged
    /// and there is still no room; what was purged stays purged. The blocks are reported to the
    /// sink, if it listens, before they are purged; where it finds the host out of memory, nothing
    /// is purged.
    pub fn purge_mem<K: PurgeSink>(&mut self, size: u32, sink: &mut K) -> Result<(), Refusal>
        requires idle { IsIdle K.told K.waits sink.old }
        ensures answer { IsAnswer (searching (purge_mem_searches size self.old.memory.heap)
            (noting (purge_mem size) self.old.memory)) result self.new.memory }
        ensures hears { Hears K.told K.waits K.listens (result ≢ Err Refusal.HostMemory)
            (purge_mem_gone size self.old.memory.heap) sink.old sink.new }
        ensures stops { result ≡ Err Refusal.HostMemory
            → Stops false K.told K.listens KeepsNames ⊥ None self.old self.new sink.old sink.new }
        ensures lies { self.new.memory.window ≡ self.old.memory.window }
    {
        let answer = self.purge_for(size, sink);
        self.note_refusal(answer)
    }

    /// `PurgeSpace`: returns what could be allocated if every block that may be purged were purged;
    /// nothing is purged.
    pub fn purge_space(&mut self) -> Space
        ensures { noting purge_space self.old.memory
            ≡ (Ok (result.total, result.contiguous), self.new.memory) }
    {
        self.log.code = OsErr::NO_ERR;
        Space {
            total: self.store.free_if_purged(),
            contiguous: self
                .store
                .largest_after(GREATEST_ZONE)
                .saturating_sub(HEADER_SIZE),
        }
    }

    /// Returns the number of bytes that are free or belong to blocks that may be purged.
    pub fn free_or_purgeable(&self) -> u32
        ensures { result ≡ free_sum (purged_all self.now.memory.heap.zone) }
    {
        self.store.free_if_purged()
    }

    /// `MaxMem`: purges every block that may be purged, compacts all runs of movable blocks, and
    /// returns the logical size in bytes of the largest block that can then be allocated. The
    /// blocks are reported to the sink, if it listens, before they are purged; where it finds the
    /// host out of memory, nothing happens. Blocks move by packing alone: none is raised, hoisted,
    /// moved to a free block or made.
    pub fn max_mem<K: PurgeSink>(&mut self, sink: &mut K) -> Result<u32, Refusal>
        requires idle { IsIdle K.told K.waits sink.old }
        ensures answer { IsAnswer (moving (max_mem_moves self.old.memory.heap)
            (noting max_mem self.old.memory)) result self.new.memory }
        ensures hears { Hears K.told K.waits K.listens (result ≢ Err Refusal.HostMemory)
            (max_mem_gone self.old.memory.heap) sink.old sink.new }
        ensures stops { result ≡ Err Refusal.HostMemory
            → Stops false K.told K.listens KeepsNames ⊥ None self.old self.new sink.old sink.new }
        ensures placed { self.new.placings ≡ self.old.placings }
        ensures lies { self.new.memory.window ≡ self.old.memory.window }
    {
        let purges = self.store.purgeable(Sparing::Nothing);
        purge_telling(&mut self.store, &self.names, purges, Sparing::Nothing, sink)?;
        compact(&mut self.store, None);
        self.log.code = OsErr::NO_ERR;
        Ok(self.store.largest_free().saturating_sub(HEADER_SIZE))
    }

    /// Purges blocks, lowest first, until a block of `size` bytes of content has room, counts the
    /// searches for room, and reports the blocks to a sink, if it listens.
    fn purge_for<K: PurgeSink>(&mut self, size: u32, sink: &mut K) -> Result<(), Refusal>
        requires idle { IsIdle K.told K.waits sink.old }
        ensures answer { IsAnswer (searching (purge_mem_searches size self.old.memory.heap)
            (silent (purge_mem size) self.old.memory)) result self.new.memory }
        ensures hears { Hears K.told K.waits K.listens (result ≢ Err Refusal.HostMemory)
            (purge_mem_gone size self.old.memory.heap) sink.old sink.new }
        ensures stops { result ≡ Err Refusal.HostMemory
            → Stops false K.told K.listens KeepsNames ⊥ None self.old self.new sink.old sink.new }
        ensures lies { self.new.memory.window ≡ self.old.memory.window }
    {
        let bytes = phys(size);
        let purges = purges_for(&self.store, bytes);
        purge_telling(&mut self.store, &self.names, purges, Sparing::Nothing, sink)?;
        let served = has_room(&self.store, bytes);
        Ok(self.account(Grown {
            done: served,
            searches: purges + 1,
        })?)
    }
}

/// The search for a free block of `bytes` bytes.
#[derive(Clone, Copy)]
struct FreeBlock {
    bytes: Option<u32>,
}

impl Sought for FreeBlock {
    ghost Allows = { λ sought zone. IfSome sought.bytes (λ p. 0 < p) };

    ghost is_there = { λ sought zone k. has_room sought.bytes (purged k Nothing zone) };

    ghost most = { λ sought zone. most_purges Nothing zone };

    fn is_there_after<S: BlockStore>(&self, store: &S, purges: u32) -> bool {
        match self.bytes {
            None => false,
            Some(bytes) => bytes <= store.largest_after(purges),
        }
    }

    fn goes_on<S: BlockStore>(&self, store: &S) -> bool {
        any_goes(store, Sparing::Nothing)
    }

    fn most_purges<S: BlockStore>(&self, store: &S) -> u32 {
        store.purgeable(Sparing::Nothing)
    }

    ghost rises = { λ sought zone k m allows. has_room-rises sought.bytes Nothing zone k m };

    ghost ends = { λ sought zone k allows. room-ends sought.bytes Nothing zone k };
}

/// Returns how many blocks are purged, lowest first, until a free block of `bytes` bytes stands;
/// the number of all that may be purged where no such block stands even then, or where `bytes` is
/// `None`.
///
/// *Inside Macintosh: Memory*, chapter 1, "Purging and Reallocating Relocatable Blocks".
fn purges_for<S: BlockStore>(store: &S, bytes: Option<u32>) -> u32
    requires { IfSome bytes (λ p. 0 < p) }
    ensures { result ≡ blocks_purged bytes (S.zone store.now) }
{
    least_search(store, &FreeBlock { bytes }).purges
}
