//! Empty handles.

ghost use Rattle.std.specs.Prelude.{◌≡◌, ◌≢◌, Err};
ghost use Rattle.std.specs.Prelude.{None};
ghost use Rattle.heap_calls.specs.Busy.{barred, change_barred, unless};
ghost use Rattle.heap_calls.specs.Gone.{IsIdle, gone_unless, Hears};
ghost use Rattle.heap_calls.specs.Rows.{reallocate_handle, doing, doing_silently, purges_made};
ghost use Rattle.heap_calls.specs.Inner.Given.{IsAnswer, KeepsNames};
ghost use Rattle.heap_calls.specs.Inner.Numbered.{Agrees};
ghost use Rattle.heap_calls.specs.Answer.{noting, silent};
ghost use Rattle.heap_calls.specs.Purging.{empty_handle};
ghost use Rattle.heap_calls.specs.Inner.Loose.{FindsLoose};
ghost use Rattle.heap_calls.specs.Left.{Stops};

use crate::anchor::{Anchor, slot_of};
use crate::growing_in_place::Grown;
use crate::heap::Heap;
use crate::locking::can_move;
use crate::new_block::put_block;
use crate::refusal::Refusal;
use crate::sink::PurgeSink;
use block_store::{BlockStore, Sparing};
use mac_words::OsErr;

impl<S: BlockStore> Heap<S> {
    /// `EmptyHandle`: frees the block of a handle, and leaves the handle empty. An empty handle
    /// stays as it is. Returns -112 (memPurErr) where the block is locked.
    pub fn empty_handle(&mut self, handle: Option<usize>) -> Result<(), OsErr>
        ensures answer { unless (barred handle self.old.memory)
            (noting (empty_handle handle)) self.old.memory
            ≡ (result, self.new.memory) }
        ensures lies { self.new.memory.window ≡ self.old.memory.window }
    {
        if let Some(code) = self.barred(handle) {
            return self.refuse(code);
        }
        let answer = self.empty(handle);
        self.note(answer)
    }

    /// `ReallocateHandle`: allocates a new block of `size` bytes, all 0, for a handle, whose old
    /// block, if it has one, becomes free first. Returns -112 (memPurErr) where the old block is
    /// locked, -108 (memFullErr) where there is no room for the new block, and -30001 (profileErr)
    /// where the handle is a System resource's. The blocks that are purged for the new one are
    /// reported to the sink, if it listens. Where the host is out of memory, all but the zone and
    /// the count of moves stays as it was; over a store that takes no host memory that can be only
    /// where the sink listens, and the whole heap and the sink stay as they were.
    pub fn reallocate_handle<K: PurgeSink>(
        &mut self,
        handle: Option<usize>,
        size: u32,
        sink: &mut K,
    ) -> Result<(), Refusal>
        requires idle { IsIdle K.told K.waits sink.old }
        ensures answer { IsAnswer (unless (change_barred handle self.old.memory)
            (doing (reallocate_handle handle size)) self.old.memory) result self.new.memory }
        ensures hears { Hears K.told K.waits K.listens (result ≢ Err Refusal.HostMemory)
            (gone_unless (change_barred handle self.old.memory)
            (purges_made (reallocate_handle handle size) self.old.memory.heap)) sink.old sink.new }
        ensures stops { result ≡ Err Refusal.HostMemory → Stops S.TAKES_HOST K.told K.listens
            KeepsNames ⊥ None self.old self.new sink.old sink.new }
        ensures lies { self.new.memory.window ≡ self.old.memory.window }
    {
        if let Some(code) = self.change_barred(handle) {
            return Ok(self.refuse(code)?);
        }
        let answer = self.reallocate(handle, size, sink);
        self.note_refusal(answer)
    }

    /// Frees the block of a handle, and leaves the handle empty.
    fn empty(&mut self, handle: Option<usize>) -> Result<(), OsErr>
        ensures answer { silent (empty_handle handle) self.old.memory ≡ (result, self.new.memory) }
        ensures lies { self.new.memory.window ≡ self.old.memory.window }
    {
        let slot = loose_slot(&self.store, &self.names, handle)?;
        self.store.release(slot);
        Ok(())
    }

    /// Allocates a new block for a handle, counts the searches for room, and reports the blocks
    /// that are purged to a sink, if it listens.
    fn reallocate<K: PurgeSink>(
        &mut self,
        handle: Option<usize>,
        size: u32,
        sink: &mut K,
    ) -> Result<(), Refusal>
        requires idle { IsIdle K.told K.waits sink.old }
        ensures answer { IsAnswer (doing_silently (reallocate_handle handle size) self.old.memory)
            result self.new.memory }
        ensures hears { Hears K.told K.waits K.listens (result ≢ Err Refusal.HostMemory)
            (purges_made (reallocate_handle handle size) self.old.memory.heap) sink.old sink.new }
        ensures stops { result ≡ Err Refusal.HostMemory → Stops S.TAKES_HOST K.told K.listens
            KeepsNames ⊥ None self.old self.new sink.old sink.new }
        ensures lies { self.new.memory.window ≡ self.old.memory.window }
    {
        let slot = loose_slot(&self.store, &self.names, handle)?;
        let sparing = Sparing::Freed(slot);
        let made = put_block(&mut self.store, &self.names, slot, size, sparing, sink)?;
        let grown = Grown {
            done: made.slot.is_some(),
            searches: made.searches,
        };
        Ok(self.account(grown)?)
    }
}

/// Returns the slot of the handle that a name is bound to, unless the handle has a locked block.
fn loose_slot<S: BlockStore>(
    store: &S,
    names: &[Anchor],
    handle: Option<usize>,
) -> Result<u32, OsErr>
    requires { Agrees (S.zone store.now) (S.rest store.now) names.now }
    ensures { FindsLoose (S.zone store.now) (S.rest store.now).slots names.now handle result }
{
    let found = slot_of(names, handle)?;
    let Some(place) = store.place_of(found.slot) else {
        return Ok(found.slot);
    };
    if !can_move(store.block_at(place)) {
        return Err(OsErr::PURGED);
    }
    Ok(found.slot)
}
