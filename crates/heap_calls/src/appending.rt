//! Bytes appended to a handle's block.

ghost use Rattle.std.specs.Prelude.{◌≡◌, ◌≢◌, ◌⊎◌, ◌≤◌, ◌+◌, ◌||◌, Some, Err, true, length};
ghost use Rattle.std.specs.Prelude.{take, IsSome, IsSomeAnd, IsTrue, IsErr, IfOk, OnErr};
ghost use Rattle.std.specs.Prelude.{IsOk, None};
ghost use Rattle.block_store.specs.Block.{is_relocatable, content_of};
ghost use Rattle.block_store.specs.Find.{FindsLowest};
ghost use Rattle.block_store.specs.Sparing.{spared};
ghost use Rattle.block_store.specs.Rest.{IsRest, KeepsSlots};
ghost use Rattle.block_store.specs.Room.{spot};
ghost use Rattle.heap_calls.specs.Busy.{change_barred, both_barred, unless};
ghost use Rattle.heap_calls.specs.Inner.Appending.{size_for, behind, bytes_of, seek_longer};
ghost use Rattle.heap_calls.specs.Inner.Appending.{length_of};
ghost use Rattle.heap_calls.specs.Gone.{IsIdle, gone_unless};
ghost use Rattle.heap_calls.specs.Rows.{hand_and_hand, pointer_and_hand, doing, doing_silently};
ghost use Rattle.heap_calls.specs.Rows.{purges_made};
ghost use Rattle.heap_calls.specs.Inner.Halting.{Halts};
ghost use Rattle.heap_calls.specs.Inner.Given.{IsAnswer, KeepsNames};
ghost use Rattle.heap_calls.specs.Inner.Growing.{Spares};
ghost use Rattle.heap_calls.specs.Inner.Telling.{OpensNone};
ghost use Rattle.heap_calls.specs.Inner.Numbered.{KeepsNonrelocatable};
ghost use Rattle.heap_calls.specs.Inner.Went.{Went, seek_sized, told_along};
ghost use Rattle.block_store.specs.declared.measures.TheConstants.{GREATEST_ZONE};
ghost use Rattle.heap_calls.specs.Gone.{Hears};
ghost use Rattle.heap_calls.specs.Left.{Stops};

use crate::anchor::Anchor;
use crate::growing_in_place::Grown;
use crate::heap::Heap;
use crate::reaching::reach;
use crate::refusal::Refusal;
use crate::sink::PurgeSink;
use crate::sizing::fit_block;
use block_store::{BlockStore, Sparing};
use std::alloc::AllocError;

impl<S: BlockStore> Heap<S> {
    /// `HandAndHand`: appends the bytes of the block of `from` to the block of `to`, which may be
    /// the same handle. Neither block is purged for it. Returns -108 (memFullErr) where there is no
    /// room, and -30001 (profileErr) where `to` is a System resource's. The blocks that are purged
    /// for it are reported to the sink, if it listens. Where the host is out of memory, all but the
    /// zone and the count of moves stays as it was; over a store that takes no host memory that can
    /// be only where the sink listens, and the whole heap stays as it was.
    ///
    /// *Inside Macintosh: Memory*, chapter 2, "Manipulating Blocks of Memory".
    pub fn hand_and_hand<K: PurgeSink>(
        &mut self,
        from: Option<usize>,
        to: Option<usize>,
        sink: &mut K,
    ) -> Result<(), Refusal>
        requires idle { IsIdle K.told K.waits sink.old }
        ensures answer { IsAnswer (unless (both_barred from to self.old.memory)
            (doing (hand_and_hand from to)) self.old.memory) result self.new.memory }
        ensures hears { Hears K.told K.waits K.listens (result ≢ Err Refusal.HostMemory)
            (gone_unless (both_barred from to self.old.memory)
            (purges_made (hand_and_hand from to) self.old.memory.heap)) sink.old sink.new }
        ensures stops { result ≡ Err Refusal.HostMemory → Stops S.TAKES_HOST K.told K.listens
            KeepsNames ⊥ None self.old self.new sink.old sink.new }
        ensures lies { self.new.memory.window ≡ self.old.memory.window }
    {
        if let Some(code) = self.both_barred(from, to) {
            return Ok(self.refuse(code)?);
        }
        let answer = self.append_handle(from, to, sink);
        self.note_refusal(answer)
    }

    /// `PtrAndHand`: appends bytes to the block of a handle. Returns -108 (memFullErr) where there
    /// is no room, and -30001 (profileErr) where the handle is a System resource's. The blocks that
    /// are purged for it are reported to the sink, if it listens. Where the host is out of memory,
    /// all but the zone and the count of moves stays as it was; over a store that takes no host
    /// memory that can be only where the sink listens, and the whole heap stays as it was.
    ///
    /// *Inside Macintosh: Memory*, chapter 2, "Manipulating Blocks of Memory".
    pub fn pointer_and_hand<K: PurgeSink>(
        &mut self,
        handle: Option<usize>,
        bytes: &[u8],
        sink: &mut K,
    ) -> Result<(), Refusal>
        requires idle { IsIdle K.told K.waits sink.old }
        ensures answer { IsAnswer (unless (change_barred handle self.old.memory)
            (doing (pointer_and_hand handle bytes.now)) self.old.memory) result self.new.memory }
        ensures hears { Hears K.told K.waits K.listens (result ≢ Err Refusal.HostMemory)
            (gone_unless (change_barred handle self.old.memory) (purges_made
            (pointer_and_hand handle bytes.now) self.old.memory.heap)) sink.old sink.new }
        ensures stops { result ≡ Err Refusal.HostMemory → Stops S.TAKES_HOST K.told K.listens
            KeepsNames ⊥ None self.old self.new sink.old sink.new }
        ensures lies { self.new.memory.window ≡ self.old.memory.window }
    {
        if let Some(code) = self.change_barred(handle) {
            return Ok(self.refuse(code)?);
        }
        let answer = self.append_slice(handle, bytes, sink);
        self.note_refusal(answer)
    }

    /// Appends the bytes of one handle's block to another's, counts the searches for room, and
    /// reports the blocks that are purged to a sink, if it listens.
    fn append_handle<K: PurgeSink>(
        &mut self,
        from: Option<usize>,
        to: Option<usize>,
        sink: &mut K,
    ) -> Result<(), Refusal>
        requires idle { IsIdle K.told K.waits sink.old }
        ensures answer { IsAnswer (doing_silently (hand_and_hand from to) self.old.memory) result
            self.new.memory }
        ensures hears { Hears K.told K.waits K.listens (result ≢ Err Refusal.HostMemory)
            (purges_made (hand_and_hand from to) self.old.memory.heap) sink.old sink.new }
        ensures stops { result ≡ Err Refusal.HostMemory → Stops S.TAKES_HOST K.told K.listens
            KeepsNames ⊥ None self.old self.new sink.old sink.new }
        ensures lies { self.new.memory.window ≡ self.old.memory.window }
    {
        let source = reach(&self.store, &self.names, from)?;
        let held = reach(&self.store, &self.names, to)?;
        let more = length_at(&self.store, source.slot, source.place);
        let grown = append_block(
            &mut self.store,
            &self.names,
            source.slot,
            more,
            held.slot,
            held.place,
            sink,
        )?;
        Ok(self.account(grown)?)
    }

    /// Appends bytes to a handle's block, counts the searches for room, and reports the blocks that
    /// are purged to a sink, if it listens.
    fn append_slice<K: PurgeSink>(
        &mut self,
        handle: Option<usize>,
        bytes: &[u8],
        sink: &mut K,
    ) -> Result<(), Refusal>
        requires idle { IsIdle K.told K.waits sink.old }
        ensures answer { IsAnswer (doing_silently (pointer_and_hand handle bytes.now)
            self.old.memory) result self.new.memory }
        ensures hears { Hears K.told K.waits K.listens (result ≢ Err Refusal.HostMemory)
            (purges_made (pointer_and_hand handle bytes.now) self.old.memory.heap)
            sink.old sink.new }
        ensures stops { result ≡ Err Refusal.HostMemory → Stops S.TAKES_HOST K.told K.listens
            KeepsNames ⊥ None self.old self.new sink.old sink.new }
        ensures lies { self.new.memory.window ≡ self.old.memory.window }
    {
        let held = reach(&self.store, &self.names, handle)?;
        let grown = append_bytes(
            &mut self.store,
            &self.names,
            held.slot,
            held.place,
            bytes,
            sink,
        )?;
        Ok(self.account(grown)?)
    }
}

/// Returns the logical size in bytes of the block of `slot`, which stands at `place`.
fn length_at<S: BlockStore>(store: &S, slot: u32, place: u32) -> u32
    requires { FindsLowest (is_relocatable slot) (S.zone store.now) (Some place) }
    ensures is { result ≡ length_of slot (S.zone store.now) }
    ensures small { result ≤ GREATEST_ZONE }
{
    store.bytes(place).len() as u32
}

/// Returns the sum of `len` and `more`, if a block can have that size.
fn joined_size(len: u32, more: usize) -> Option<u32>
    requires { len ≤ GREATEST_ZONE }
    ensures { result ≡ size_for (len + more) }
{
    let most = 2_147_483_616 - len;
    if more > most as usize {
        return None;
    }
    Some(len + more as u32)
}

/// Changes the logical size of the block of `slot`, which stands at `place`, from `len` bytes to
/// `len + more`, if a block can have that size and there is room.
fn lengthen<S: BlockStore, K: PurgeSink>(
    store: &mut S,
    names: &[Anchor],
    slot: u32,
    place: u32,
    len: u32,
    more: usize,
    sparing: Sparing,
    sink: &mut K,
) -> Result<Grown, AllocError>
    requires idle { IsIdle K.told K.waits sink.old }
    requires spared { Spares sparing (is_relocatable slot) }
    requires whole { OpensNone sparing }
    requires found { FindsLowest (is_relocatable slot) (S.zone store.old) (Some place) }
    requires len { len ≡ length_of slot (S.zone store.old) }
    requires small { len ≤ GREATEST_ZONE }
    ensures went { IfOk result (λ r. Went (spared sparing) (S.zone store.old)
        (seek_sized (is_relocatable slot) (length_of slot (S.zone store.old) + more)
        (spared sparing) (S.zone store.old))
        r.done r.searches (S.zone store.new) (S.rest store.old) (S.rest store.new)) }
    ensures nonrelocatable { KeepsNonrelocatable (S.zone store.old) (S.zone store.new) }
    ensures rest { KeepsSlots (S.rest store.old) (S.rest store.new) }
    ensures hears { Hears K.told K.waits K.listens (IsOk result) (told_along names.now
        (spared sparing) (seek_sized (is_relocatable slot) (length_of slot (S.zone store.old)
        + more) (spared sparing) (S.zone store.old)) (S.zone store.old)) sink.old sink.new }
    ensures halts { OnErr result (Halts S.TAKES_HOST K.told K.listens (S.zone store.old)
        (S.rest store.old) (S.zone store.new) (S.rest store.new) sink.old sink.new) }
{
    let Some(size) = joined_size(len, more) else {
        return Ok(Grown {
            done: false,
            searches: 0,
        });
    };
    fit_block(store, names, slot, place, size, sparing, sink)
}

/// Writes bytes after the first `len` bytes of the block of `slot`.
fn write_behind<S: BlockStore>(store: &mut S, slot: u32, len: u32, bytes: &[u8])
    requires { IsSomeAnd (spot (is_relocatable slot) (S.zone store.old))
        (λ s. len + length bytes.now ≤ length (content_of s.here)) }
    ensures zone { S.zone store.new ≡ behind slot len bytes.now (S.zone store.old) }
    ensures rest { IsRest (S.rest store.old) (S.rest store.new) }
{
    let Some(place) = store.place_of(slot) else {
        unreachable!()
    };
    store.write(place, len, bytes);
}

/// Copies the first `bytes` bytes of the block of `source` to the block of `slot`, after its first
/// `len` bytes; the two may be the same block.
fn copy_behind<S: BlockStore>(store: &mut S, source: u32, bytes: u32, slot: u32, len: u32)
    requires source { IsSomeAnd (spot (is_relocatable source) (S.zone store.old))
        (λ s. bytes ≤ length (content_of s.here)) }
    requires within { IsSomeAnd (spot (is_relocatable slot) (S.zone store.old))
        (λ s. len + bytes ≤ length (content_of s.here)) }
    ensures zone { S.zone store.new ≡ behind slot len (take bytes
        (bytes_of (spot (is_relocatable source) (S.zone store.old)))) (S.zone store.old) }
    ensures rest { IsRest (S.rest store.old) (S.rest store.new) }
{
    let Some(from) = store.place_of(source) else {
        unreachable!()
    };
    let Some(place) = store.place_of(slot) else {
        unreachable!()
    };
    store.copy(from, 0, bytes, place, len);
}

/// Appends bytes to the block of `slot`, which stands at `place`.
fn append_bytes<S: BlockStore, K: PurgeSink>(
    store: &mut S,
    names: &[Anchor],
    slot: u32,
    place: u32,
    bytes: &[u8],
    sink: &mut K,
) -> Result<Grown, AllocError>
    requires idle { IsIdle K.told K.waits sink.old }
    requires found { FindsLowest (is_relocatable slot) (S.zone store.old) (Some place) }
    ensures went { IfOk result (λ r. Went (is_relocatable slot) (S.zone store.old)
        (seek_longer slot bytes.now (is_relocatable slot) (S.zone store.old))
        r.done r.searches (S.zone store.new) (S.rest store.old) (S.rest store.new)) }
    ensures nonrelocatable { KeepsNonrelocatable (S.zone store.old) (S.zone store.new) }
    ensures rest { KeepsSlots (S.rest store.old) (S.rest store.new) }
    ensures hears { Hears K.told K.waits K.listens (IsOk result) (told_along names.now
        (is_relocatable slot) (seek_longer slot bytes.now (is_relocatable slot) (S.zone store.old))
        (S.zone store.old)) sink.old sink.new }
    ensures halts { OnErr result (Halts S.TAKES_HOST K.told K.listens (S.zone store.old)
        (S.rest store.old) (S.zone store.new) (S.rest store.new) sink.old sink.new) }
{
    let len = length_at(store, slot, place);
    let grown = lengthen(
        store,
        names,
        slot,
        place,
        len,
        bytes.len(),
        Sparing::One(slot),
        sink,
    )?;
    if grown.done {
        write_behind(store, slot, len, bytes);
    }
    Ok(grown)
}

/// Appends the `more` bytes of the block of `source` to the block of `slot`, which stands at
/// `place`; the two may be the same block.
fn append_block<S: BlockStore, K: PurgeSink>(
    store: &mut S,
    names: &[Anchor],
    source: u32,
    more: u32,
    slot: u32,
    place: u32,
    sink: &mut K,
) -> Result<Grown, AllocError>
    requires idle { IsIdle K.told K.waits sink.old }
    requires source { IsSome (spot (is_relocatable source) (S.zone store.old)) }
    requires more { more ≡ length_of source (S.zone store.old) }
    requires found { FindsLowest (is_relocatable slot) (S.zone store.old) (Some place) }
    ensures went { IfOk result (λ r. Went (spared (Sparing.Two source slot)) (S.zone store.old)
        (seek_longer slot (bytes_of (spot (is_relocatable source) (S.zone store.old)))
        (spared (Sparing.Two source slot)) (S.zone store.old))
        r.done r.searches (S.zone store.new) (S.rest store.old) (S.rest store.new)) }
    ensures nonrelocatable { KeepsNonrelocatable (S.zone store.old) (S.zone store.new) }
    ensures rest { KeepsSlots (S.rest store.old) (S.rest store.new) }
    ensures hears { Hears K.told K.waits K.listens (IsOk result) (told_along names.now
        (spared (Sparing.Two source slot)) (seek_longer slot
        (bytes_of (spot (is_relocatable source) (S.zone store.old)))
        (spared (Sparing.Two source slot)) (S.zone store.old)) (S.zone store.old))
        sink.old sink.new }
    ensures halts { OnErr result (Halts S.TAKES_HOST K.told K.listens (S.zone store.old)
        (S.rest store.old) (S.zone store.new) (S.rest store.new) sink.old sink.new) }
{
    let len = length_at(store, slot, place);
    let grown = lengthen(
        store,
        names,
        slot,
        place,
        len,
        more as usize,
        Sparing::Two(source, slot),
        sink,
    )?;
    if grown.done {
        copy_behind(store, source, more, slot, len);
    }
    Ok(grown)
}
