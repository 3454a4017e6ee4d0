//! Copying blocks.

ghost use Rattle.std.specs.Prelude.{◌≡◌, ◌≢◌, ◌⊎◌, ◌≤◌, length, true, Err, IfOk, OnOk, OnErr};
ghost use Rattle.std.specs.Prelude.{IsErr, IsTrue, IsSomeAnd, is_some, unwrap_or};
ghost use Rattle.block_store.specs.Block.{Relocatable, content_of, is_relocatable, no_flags};
ghost use Rattle.block_store.specs.Room.{spot};
ghost use Rattle.block_store.specs.Slot.{is_used};
ghost use Rattle.block_store.specs.declared.sparing.Sparing.TheVariants.{One};
ghost use Rattle.heap_calls.specs.Busy.{barred, unless};
ghost use Rattle.heap_calls.specs.Inner.Given.{IsAnswer, KeepsNames};
ghost use Rattle.heap_calls.specs.Gone.{IsIdle, gone_unless};
ghost use Rattle.heap_calls.specs.Answer.{nothing};
ghost use Rattle.heap_calls.specs.Rows.{hand_to_hand, pointer_to_hand, doing, doing_silently};
ghost use Rattle.heap_calls.specs.Rows.{purges_made};
ghost use Rattle.heap_calls.specs.Refused.{LeavesCopying};
ghost use Rattle.heap_calls.specs.Inner.Appending.{bytes_of};
ghost use Rattle.heap_calls.specs.Inner.Telling.{LeavesSlot};
ghost use Rattle.heap_calls.specs.Inner.NewBlock.{fresh_block, seek_new};
ghost use Rattle.heap_calls.specs.Inner.NewSlot.{HasMore, HasSlot};
ghost use Rattle.heap_calls.specs.Inner.Went.{Went, told_along};
ghost use Rattle.heap_calls.specs.Inner.Numbered.{KeepsNonrelocatable};
ghost use Rattle.heap_calls.specs.Gone.{Hears};
ghost use Rattle.heap_calls.specs.Left.{Stops, Unreserved, slot_step, copy_step};
ghost use Rattle.std.specs.Prelude.{IsOk, Some};

use crate::anchor::{Anchor, name_handle, slot_of};
use crate::base::Taken;
use crate::heap::Heap;
use crate::new_block::new_block;
use crate::refusal::Refusal;
use crate::sink::PurgeSink;
use block_store::{BlockStore, Flags, Sparing};
use mac_words::OsErr;
use std::alloc::AllocError;

impl<S: BlockStore> Heap<S> {
    /// `HandToHand`: allocates a relocatable block with a copy of the bytes of another handle's
    /// block, and returns a handle to the copy. The block that is copied is not purged for the
    /// copy. Returns -108 (memFullErr) where the zone has no room for the block, or where all
    /// master pointers are used and there is no room for a block of more. The blocks that are
    /// purged for that, and then those for the copy, are reported to the sink, if it listens. Where
    /// the host is out of memory, all but the zone and the count of moves stays as it was; over a
    /// store that takes no host memory the whole heap and the sink stay so too, except where the
    /// sink found the host out of memory after a new master pointer block was made, which then
    /// stays.
    pub fn hand_to_hand<K: PurgeSink>(
        &mut self,
        handle: Option<usize>,
        sink: &mut K,
    ) -> Result<usize, Refusal>
        requires idle { IsIdle K.told K.waits sink.old }
        ensures hears { Hears K.told K.waits K.listens (result ≢ Err Refusal.HostMemory)
            (gone_unless (barred handle self.old.memory)
            (purges_made (hand_to_hand handle) self.old.memory.heap)) sink.old sink.new }
        ensures stops { result ≡ Err Refusal.HostMemory
            → Stops S.TAKES_HOST K.told K.listens KeepsNames (Unreserved self.old.memory)
            (Some (copy_step handle self.old.memory.heap)) self.old self.new sink.old sink.new }
        ensures answer { IsAnswer (unless (barred handle self.old.memory)
            (doing (hand_to_hand handle)) self.old.memory) result self.new.memory }
        ensures lies { self.new.memory.window ≡ self.old.memory.window }
    {
        if let Some(code) = self.barred(handle) {
            return Ok(self.refuse(code)?);
        }
        let answer = self.copy_handle(handle, sink);
        self.note_refusal(answer)
    }

    /// `PtrToHand`: allocates a relocatable block with a copy of bytes, and returns a handle to the
    /// block. It is refused where `NewHandle` is refused, for as many bytes, and purges what
    /// `NewHandle` then purges. Where the host is out of memory, all but the zone and the count of
    /// moves stays as it was; over a store that takes no host memory the whole heap and the sink
    /// stay so too, except where the sink found the host out of memory after a new master pointer
    /// block was made, which then stays.
    pub fn pointer_to_hand<K: PurgeSink>(
        &mut self,
        bytes: &[u8],
        sink: &mut K,
    ) -> Result<usize, Refusal>
        requires idle { IsIdle K.told K.waits sink.old }
        ensures hears { Hears K.told K.waits K.listens (result ≢ Err Refusal.HostMemory)
            (purges_made (pointer_to_hand bytes.now) self.old.memory.heap) sink.old sink.new }
        ensures stops { result ≡ Err Refusal.HostMemory
            → Stops S.TAKES_HOST K.told K.listens KeepsNames (Unreserved self.old.memory)
            (Some (slot_step nothing self.old.memory.heap)) self.old self.new sink.old sink.new }
        ensures answer { IsAnswer (doing (pointer_to_hand bytes.now) self.old.memory) result
            self.new.memory }
        ensures lies { self.new.memory.window ≡ self.old.memory.window }
    {
        let answer = self.copy_bytes(bytes, sink);
        self.note_refusal(answer)
    }

    /// Makes a new handle with a copy of bytes, counts the searches for room, and reports the
    /// blocks that are purged to a sink, if it listens.
    fn copy_bytes<K: PurgeSink>(&mut self, bytes: &[u8], sink: &mut K) -> Result<usize, Refusal>
        requires idle { IsIdle K.told K.waits sink.old }
        ensures hears { Hears K.told K.waits K.listens (result ≢ Err Refusal.HostMemory)
            (purges_made (pointer_to_hand bytes.now) self.old.memory.heap) sink.old sink.new }
        ensures stops { result ≡ Err Refusal.HostMemory
            → Stops S.TAKES_HOST K.told K.listens KeepsNames (Unreserved self.old.memory)
            (Some (slot_step nothing self.old.memory.heap)) self.old self.new sink.old sink.new }
        ensures answer { IsAnswer (doing_silently (pointer_to_hand bytes.now) self.old.memory)
            result self.new.memory }
        ensures lies { self.new.memory.window ≡ self.old.memory.window }
    {
        self.fill_handle(bytes, Flags::NONE, sink)
    }

    /// Makes a new handle with a copy of the bytes of another handle's block, counts the searches
    /// for room, and reports the blocks that are purged to a sink, if it listens.
    fn copy_handle<K: PurgeSink>(
        &mut self,
        handle: Option<usize>,
        sink: &mut K,
    ) -> Result<usize, Refusal>
        requires idle { IsIdle K.told K.waits sink.old }
        ensures hears { Hears K.told K.waits K.listens (result ≢ Err Refusal.HostMemory)
            (purges_made (hand_to_hand handle) self.old.memory.heap) sink.old sink.new }
        ensures stops { result ≡ Err Refusal.HostMemory
            → Stops S.TAKES_HOST K.told K.listens KeepsNames (Unreserved self.old.memory)
            (Some (copy_step handle self.old.memory.heap)) self.old self.new sink.old sink.new }
        ensures answer { IsAnswer (doing_silently (hand_to_hand handle) self.old.memory) result
            self.new.memory }
        ensures lies { self.new.memory.window ≡ self.old.memory.window }
    {
        let found = slot_of(&self.names, handle)?;
        let Some(place) = self.store.place_of(found.slot) else {
            return Err(Refusal::Code(OsErr::NIL_HANDLE));
        };
        let size = self.store.bytes(place).len() as u32;
        self.names.reserve(1)?;
        let made = copy_block(&mut self.store, &self.names, found.slot, size, sink)?;
        self.log.count(made.searches);
        Ok(name_handle(&mut self.names, made.slot)?)
    }
}

/// Puts a copy of the block of `source`, which has `size` bytes of content, where there is room,
/// under a new slot, and returns that slot; `None` where there is no unused slot and no room for
/// more, or no room for the block. The blocks that are purged for it are reported to a sink, if it
/// listens.
fn copy_block<S: BlockStore, K: PurgeSink>(
    store: &mut S,
    names: &[Anchor],
    source: u32,
    size: u32,
    sink: &mut K,
) -> Result<Taken, AllocError>
    requires idle { IsIdle K.told K.waits sink.old }
    requires used { IsTrue (is_used ((S.rest store.old).slots source)) }
    requires size { IsSomeAnd (spot (is_relocatable source) (S.zone store.old))
        (λ s. length (content_of s.here) ≡ size) }
    ensures went { IfOk result (λ r. Went (is_relocatable source) (S.zone store.old)
        (seek_new (One source) (S.rest store.old).unused size (Relocatable (unwrap_or r.slot 0)
        no_flags (bytes_of (spot (is_relocatable source) (S.zone store.old)))) (S.zone store.old))
        (is_some r.slot) r.searches (S.zone store.new) (S.rest store.old) (S.rest store.new)) }
    ensures slot { IfOk result (λ r. HasSlot r.slot (S.rest store.old) (S.rest store.new)) }
    ensures nonrelocatable { KeepsNonrelocatable (S.zone store.old) (S.zone store.new) }
    ensures kept { OnErr result (HasMore (S.rest store.old) (S.rest store.new)) }
    ensures hears { Hears K.told K.waits K.listens (IsOk result) (told_along names.now
        (is_relocatable source) (seek_new (One source) (S.rest store.old).unused size
        (fresh_block 0 size) (S.zone store.old)) (S.zone store.old)) sink.old sink.new }
    ensures left { OnErr result (IsTrue S.TAKES_HOST
        ⊎ LeavesSlot K.told names.now (One source) (S.zone store.old)
        (S.rest store.old) (S.zone store.new) (S.rest store.new) sink.old sink.new) }
    ensures host { IsErr result → IsTrue S.TAKES_HOST ⊎ (K.listens sink.old ≡ true) }
{
    let made = new_block(store, names, size, Sparing::One(source), sink)?;
    let Some(slot) = made.slot else {
        return Ok(made);
    };
    let Some(from) = store.place_of(source) else {
        unreachable!()
    };
    let Some(to) = store.place_of(slot) else {
        unreachable!()
    };
    store.copy(from, 0, size, to, 0);
    Ok(made)
}
