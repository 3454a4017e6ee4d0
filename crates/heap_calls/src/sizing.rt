//! The size of a handle's block.

ghost use Rattle.std.specs.Prelude.{◌≡◌, ◌≢◌, ◌⊎◌, Some, Err, true, IsSome, IsTrue, IsErr};
ghost use Rattle.std.specs.Prelude.{IfOk, OnErr};
ghost use Rattle.mac_words.specs.Size.{phys as physical_size};
ghost use Rattle.block_store.specs.Block.{is_relocatable};
ghost use Rattle.block_store.specs.Find.{FindsLowest};
ghost use Rattle.block_store.specs.Rest.{KeepsSlots, counted};
ghost use Rattle.heap_calls.specs.Busy.{change_barred, unless};
ghost use Rattle.heap_calls.specs.Inner.Reaching.{sized_reply};
ghost use Rattle.heap_calls.specs.Inner.Numbered.{KeepsNonrelocatable};
ghost use Rattle.heap_calls.specs.Inner.Given.{IsAnswer, KeepsNames};
ghost use Rattle.heap_calls.specs.Gone.{IsIdle, gone_unless, Hears};
ghost use Rattle.heap_calls.specs.Rows.{set_handle_size, doing, doing_silently, purges_made};
ghost use Rattle.heap_calls.specs.Inner.Halting.{Halts};
ghost use Rattle.heap_calls.specs.Inner.Went.{Went, seek_sized, told_along};
ghost use Rattle.heap_calls.specs.Inner.Growing.{Spares};
ghost use Rattle.heap_calls.specs.Inner.Telling.{OpensNone};
ghost use Rattle.block_store.specs.Sparing.{spared};
ghost use Rattle.heap_calls.specs.Left.{Stops};
ghost use Rattle.std.specs.Prelude.{IsOk, None};

use crate::anchor::Anchor;
use crate::growing::{bytes_of, grow_movable};
use crate::growing_in_place::{Grown, grow_in_place};
use crate::heap::Heap;
use crate::locking::can_move;
use crate::reaching::reach;
use crate::refusal::Refusal;
use crate::sink::PurgeSink;
use block_store::{BlockStore, Sparing};
use mac_words::{OsErr, phys};
use std::alloc::AllocError;

impl<S: BlockStore> Heap<S> {
    /// `SetHandleSize`: changes the logical size of a handle's block to `size` bytes; new bytes
    /// are 0. Returns -108 (memFullErr) where there is no room, and -30001 (profileErr) where the
    /// handle is a System resource's. The blocks that are purged for it are reported to the sink,
    /// if it listens. Where the host is out of memory, all but the zone and the count of moves
    /// stays as it was; over a store that takes no host memory that can be only where the sink
    /// listens, and the whole heap stays as it was.
    ///
    /// *Inside Macintosh: Memory*, chapter 2, "Changing the Sizes of Relocatable and Nonrelocatable
    /// Blocks".
    pub fn set_handle_size<K: PurgeSink>(
        &mut self,
        handle: Option<usize>,
        size: u32,
        sink: &mut K,
    ) -> Result<(), Refusal>
        requires idle { IsIdle K.told K.waits sink.old }
        ensures answer { IsAnswer (unless (change_barred handle self.old.memory)
            (doing (set_handle_size handle size)) self.old.memory) result self.new.memory }
        ensures hears { Hears K.told K.waits K.listens (result ≢ Err Refusal.HostMemory)
            (gone_unless (change_barred handle self.old.memory)
            (purges_made (set_handle_size handle size) self.old.memory.heap)) sink.old sink.new }
        ensures stops { result ≡ Err Refusal.HostMemory → Stops S.TAKES_HOST K.told K.listens
            KeepsNames ⊥ None self.old self.new sink.old sink.new }
        ensures lies { self.new.memory.window ≡ self.old.memory.window }
    {
        if let Some(code) = self.change_barred(handle) {
            return Ok(self.refuse(code)?);
        }
        let answer = self.give_size(handle, size, sink);
        self.note_refusal(answer)
    }

    /// Changes the logical size of a handle's block, counts the searches for room, and reports the
    /// blocks that are purged to a sink, if it listens.
    pub(crate) fn give_size<K: PurgeSink>(
        &mut self,
        handle: Option<usize>,
        size: u32,
        sink: &mut K,
    ) -> Result<(), Refusal>
        requires idle { IsIdle K.told K.waits sink.old }
        ensures answer { IsAnswer (doing_silently (set_handle_size handle size) self.old.memory)
            result self.new.memory }
        ensures hears { Hears K.told K.waits K.listens (result ≢ Err Refusal.HostMemory)
            (purges_made (set_handle_size handle size) self.old.memory.heap) sink.old sink.new }
        ensures stops { result ≡ Err Refusal.HostMemory → Stops S.TAKES_HOST K.told K.listens
            KeepsNames ⊥ None self.old self.new sink.old sink.new }
        ensures lies { self.new.memory.window ≡ self.old.memory.window }
    {
        let held = reach(&self.store, &self.names, handle)?;
        let sparing = Sparing::One(held.slot);
        let grown = fit_block(
            &mut self.store,
            &self.names,
            held.slot,
            held.place,
            size,
            sparing,
            sink,
        )?;
        Ok(self.account(grown)?)
    }

    /// Counts the searches for room that were made for a block, and returns -108 (memFullErr) where
    /// there was no room.
    pub(crate) fn account(&mut self, grown: Grown) -> Result<(), OsErr>
        ensures reply { result ≡ sized_reply grown.done }
        ensures counted { self.new.memory ≡ record self.old.memory {
          log = record self.old.memory.log
              { searches = counted self.old.memory.log.searches grown.searches };
        } }
    {
        self.log.count(grown.searches);
        if grown.done {
            Ok(())
        } else {
            Err(OsErr::MEM_FULL)
        }
    }
}

/// Changes the logical size of the block of `slot`, which stands at `place`, to `size` bytes, if a
/// block can have that size and there is room. The blocks that are purged for it are reported to a
/// sink, if it listens.
pub fn fit_block<S: BlockStore, K: PurgeSink>(
    store: &mut S,
    names: &[Anchor],
    slot: u32,
    place: u32,
    size: u32,
    sparing: Sparing,
    sink: &mut K,
) -> Result<Grown, AllocError>
    requires spared { Spares sparing (is_relocatable slot) }
    requires whole { OpensNone sparing }
    requires found { FindsLowest (is_relocatable slot) (S.zone store.old) (Some place) }
    requires idle { IsIdle K.told K.waits sink.old }
    ensures went { IfOk result (λ r. Went (spared sparing) (S.zone store.old)
        (seek_sized (is_relocatable slot) size (spared sparing) (S.zone store.old))
        r.done r.searches (S.zone store.new) (S.rest store.old) (S.rest store.new)) }
    ensures nonrelocatable { KeepsNonrelocatable (S.zone store.old) (S.zone store.new) }
    ensures rest { KeepsSlots (S.rest store.old) (S.rest store.new) }
    ensures hears { Hears K.told K.waits K.listens (IsOk result) (told_along names.now
        (spared sparing) (seek_sized (is_relocatable slot) size (spared sparing)
        (S.zone store.old)) (S.zone store.old)) sink.old sink.new }
    ensures halts { OnErr result (Halts S.TAKES_HOST K.told K.listens (S.zone store.old)
        (S.rest store.old) (S.zone store.new) (S.rest store.new) sink.old sink.new) }
{
    if phys(size).is_none() {
        return Ok(Grown {
            done: false,
            searches: 0,
        });
    }
    resize_block(store, names, slot, place, size, sparing, sink)
}

/// Changes the logical size of the block of `slot`, which stands at `place`, to `size` bytes: the
/// block is cut where it stands, or grows, and a locked block grows where it stands. The blocks
/// that are purged for it are reported to a sink, if it listens.
fn resize_block<S: BlockStore, K: PurgeSink>(
    store: &mut S,
    names: &[Anchor],
    slot: u32,
    place: u32,
    size: u32,
    sparing: Sparing,
    sink: &mut K,
) -> Result<Grown, AllocError>
    requires fits { IsSome (physical_size size) }
    requires spared { Spares sparing (is_relocatable slot) }
    requires whole { OpensNone sparing }
    requires found { FindsLowest (is_relocatable slot) (S.zone store.old) (Some place) }
    requires idle { IsIdle K.told K.waits sink.old }
    ensures went { IfOk result (λ r. Went (spared sparing) (S.zone store.old)
        (seek_sized (is_relocatable slot) size (spared sparing) (S.zone store.old))
        r.done r.searches (S.zone store.new) (S.rest store.old) (S.rest store.new)) }
    ensures nonrelocatable { KeepsNonrelocatable (S.zone store.old) (S.zone store.new) }
    ensures rest { KeepsSlots (S.rest store.old) (S.rest store.new) }
    ensures hears { Hears K.told K.waits K.listens (IsOk result) (told_along names.now
        (spared sparing) (seek_sized (is_relocatable slot) size (spared sparing)
        (S.zone store.old)) (S.zone store.old)) sink.old sink.new }
    ensures halts { OnErr result (Halts S.TAKES_HOST K.told K.listens (S.zone store.old)
        (S.rest store.old) (S.zone store.new) (S.rest store.new) sink.old sink.new) }
{
    let Some(bytes) = phys(size) else {
        unreachable!()
    };
    if bytes <= bytes_of(store, slot) {
        store.resize(place, size)?;
        return Ok(Grown {
            done: true,
            searches: 0,
        });
    }
    if can_move(store.block_at(place)) {
        return grow_movable(store, names, slot, size, sparing, sink);
    }
    grow_in_place(store, names, place, size, sparing, sink)
}
