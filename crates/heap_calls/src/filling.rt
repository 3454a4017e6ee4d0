//! New blocks with given properties and bytes.

ghost use Rattle.std.specs.Prelude.{◌≡◌, ◌≢◌, ◌⊎◌, ◌+◌, ◌<◌, ◌≤◌, true, false, Err, [], map};
ghost use Rattle.std.specs.Prelude.{length, IfOk, OnOk, OnErr, IsErr, IsTrue, IsOk, Some, None};
ghost use Rattle.std.specs.Prelude.{vec_len, vec_capacity, is_some, unwrap_or};
ghost use Rattle.heap_calls.specs.State.{Plain, Resource};
ghost use Rattle.heap_calls.specs.Inside.{inside, has_block, new_filled, new_empty, refill};
ghost use Rattle.heap_calls.specs.Inside.{new_inside, new_empty_inside, refill_inside};
ghost use Rattle.heap_calls.specs.Inside.{resource_role, new_all, all_gone};
ghost use Rattle.heap_calls.specs.Rows.{purges_made};
ghost use Rattle.heap_calls.specs.Answer.{nothing};
ghost use Rattle.heap_calls.specs.Refused.{LeavesMasters};
ghost use Rattle.heap_calls.specs.Gone.{Tells, TellsNothing, IsIdle};
ghost use Rattle.heap_calls.specs.Preloaded.{LeavesUnmade, MadeSome};
ghost use Rattle.heap_calls.specs.Inner.Telling.{LeavesSlot};
ghost use Rattle.heap_calls.specs.Inner.Given.{IsAnswer, KeepsMoves, KeepsNames};
ghost use Rattle.heap_calls.specs.Inner.Filling.{IsSizeOf, IsReplaced};
ghost use Rattle.heap_calls.specs.Inner.Filling.{owned_by, wanted_as};
ghost use Rattle.heap_calls.specs.Inner.Filling.{IsNext};
ghost use Rattle.heap_calls.specs.Inner.NewBlock.{IsFresh, fresh_block, seek_block, seek_new};
ghost use Rattle.heap_calls.specs.Inner.NewSlot.{HasMore, HasSlot};
ghost use Rattle.heap_calls.specs.Inner.Went.{Went, told_along};
ghost use Rattle.heap_calls.specs.Inner.Numbered.{Agrees, KeepsNonrelocatable, memory_of};
ghost use Rattle.block_store.specs.Block.{Relocatable, is_relocatable};
ghost use Rattle.block_store.specs.Rest.{IsRest, KeepsSlots};
ghost use Rattle.block_store.specs.Run.{has};
ghost use Rattle.block_store.specs.Slot.{is_used};
ghost use Rattle.block_store.specs.declared.sparing.Sparing.TheVariants.{Nothing};
ghost use Rattle.heap_calls.specs.Gone.{Hears, Rests};
ghost use Rattle.heap_calls.specs.Inner.Halting.{Halts};
ghost use Rattle.heap_calls.specs.Left.{Stops, Unreserved, slot_step};

use crate::anchor::{Anchor, name_handle, slot_of};
use crate::base::Taken;
use crate::growing_in_place::Grown;
use crate::heap::Heap;
use crate::log::Log;
use crate::new_block::{new_block, put_block};
use crate::refusal::Refusal;
use crate::sink::PurgeSink;
use block_store::{BlockStore, Flags, Sparing};
use std::alloc::AllocError;

/// What a new resource's block is to hold: its bytes, and its properties.
#[derive(Clone, Copy, Debug)]
pub struct Filling<'a> {
    pub bytes: &'a [u8],
    pub flags: Flags,
}

impl<S: BlockStore> Heap<S> {
    /// Makes a new handle of a resource, with a block of these bytes and properties, and returns
    /// the handle's number. Returns -108 (memFullErr) where the zone has no room for the block, or
    /// where all master pointers are used and there is no room for a block of more. The blocks that
    /// are purged for that, and then those for the block, are reported to the sink, if it listens.
    /// Where the host is out of memory, all but the zone and the count of moves stays as it was;
    /// over a store that takes no host memory the whole heap and the sink stay so too, except where
    /// the sink found the host out of memory after a new master pointer block was made, which then
    /// stays.
    ///
    /// *More Macintosh Toolbox*, chapter 1, "Using the Resource Manager".
    pub fn new_resource<K: PurgeSink>(
        &mut self,
        bytes: &[u8],
        flags: Flags,
        guarded: bool,
        sink: &mut K,
    ) -> Result<usize, Refusal>
        requires idle { IsIdle K.told K.waits sink.old }
        ensures answer { IsAnswer (new_inside (resource_role guarded) flags bytes.now
            self.old.memory) result self.new.memory }
        ensures hears { Hears K.told K.waits K.listens (result ≢ Err Refusal.HostMemory)
            (purges_made (new_filled (resource_role guarded) flags bytes.now)
            self.old.memory.heap) sink.old sink.new }
        ensures stops { result ≡ Err Refusal.HostMemory
            → Stops S.TAKES_HOST K.told K.listens KeepsNames (Unreserved self.old.memory)
            (Some (slot_step nothing self.old.memory.heap)) self.old self.new sink.old sink.new }
        ensures lies { self.new.memory.window ≡ self.old.memory.window }
    {
        let answer = self.fill_handle(bytes, flags, sink);
        self.own(answer, guarded)
    }

    /// Makes a new handle of a resource, with no block, and returns the handle's number. Returns
    /// -108 (memFullErr) where all master pointers are used and there is no room for a block of
    /// more. The blocks that are purged for it are reported to the sink, if it listens. Where the
    /// host is out of memory, all but the zone stays as it was, and the whole heap and the sink
    /// stay so over a store that takes no host memory.
    pub fn new_empty_resource<K: PurgeSink>(
        &mut self,
        guarded: bool,
        sink: &mut K,
    ) -> Result<usize, Refusal>
        requires idle { IsIdle K.told K.waits sink.old }
        ensures answer { IsAnswer (new_empty_inside (resource_role guarded) self.old.memory) result
            self.new.memory }
        ensures hears { Hears K.told K.waits K.listens (result ≢ Err Refusal.HostMemory)
            (purges_made (new_empty (resource_role guarded)) self.old.memory.heap)
            sink.old sink.new }
        ensures stops { result ≡ Err Refusal.HostMemory → Stops S.TAKES_HOST K.told K.listens
            KeepsMoves (Unreserved self.old.memory) None self.old self.new sink.old sink.new }
        ensures lies { self.new.memory.window ≡ self.old.memory.window }
    {
        let answer = self.make_empty_handle(sink);
        self.own(answer, guarded)
    }

    /// Makes new handles of resources, one after another and none of them guarded, and puts the
    /// number of each into `numbers`, in place of what was there: `None` for each whose block finds
    /// no room. The blocks that are purged for each in turn are reported to the sink, if it
    /// listens. Host memory for the numbers and for the answer is allocated before the first handle
    /// is made; the answer takes some also where the numbers are reserved. Over a store that takes
    /// no host memory, nothing changes where it cannot be had; and where the sink finds the host
    /// out of memory, the handles that were made stay, and `numbers` has the number of each.
    pub fn new_resources<K: PurgeSink>(
        &mut self,
        wanted: &[Filling<'_>],
        numbers: &mut Vec<Option<usize>>,
        sink: &mut K,
    ) -> Result<(), AllocError>
        requires idle { IsIdle K.told K.waits sink.old }
        ensures answer { OnOk result (new_all (map wanted_as wanted.now) self.old.memory
            ≡ (numbers.new.items, self.new.memory)) }
        ensures hears { Hears K.told K.waits K.listens (IsOk result)
            (all_gone (map wanted_as wanted.now) self.old.memory) sink.old sink.new }
        ensures untold { OnErr result (IsTrue S.TAKES_HOST
            ⊎ MadeSome K.told (map wanted_as wanted.now) self.old.memory numbers.new.items
            self.new.memory sink.old sink.new) }
        ensures host { IsErr result
            → IsTrue S.TAKES_HOST ⊎ ((self.new ≡ self.old) ⊎ (K.listens sink.old ≡ true)) }
        ensures lies { self.new.memory.window ≡ self.old.memory.window }
    {
        numbers.clear();
        numbers.reserve(wanted.len())?;
        let reserved = self.log.reserved;
        self.reserve(wanted.len())?;
        // The numbers are reserved for these handles alone.
        self.log.reserved = reserved;
        add_resources(
            &mut self.store,
            &mut self.names,
            &mut self.log,
            wanted,
            numbers,
            sink,
        )
    }

    /// Gives an empty handle a block of these bytes and properties. Returns -108 (memFullErr) where
    /// there is no room for the block. The blocks that are purged for it are reported to the sink,
    /// if it listens. Where the host is out of memory, all but the zone and the count of moves
    /// stays as it was; over a store that takes no host memory that can be only where the sink
    /// listens, and the whole heap and the sink stay as they were.
    pub fn refill<K: PurgeSink>(
        &mut self,
        number: usize,
        bytes: &[u8],
        flags: Flags,
        sink: &mut K,
    ) -> Result<(), Refusal>
        requires emptied { has_block number self.old.memory.heap ≡ false }
        requires idle { IsIdle K.told K.waits sink.old }
        ensures answer { IsAnswer (refill_inside number flags bytes.now self.old.memory) result
            self.new.memory }
        ensures hears { Hears K.told K.waits K.listens (result ≢ Err Refusal.HostMemory)
            (purges_made (refill number flags bytes.now) self.old.memory.heap)
            sink.old sink.new }
        ensures stops { result ≡ Err Refusal.HostMemory → Stops S.TAKES_HOST K.told K.listens
            KeepsNames ⊥ None self.old self.new sink.old sink.new }
        ensures lies { self.new.memory.window ≡ self.old.memory.window }
    {
        let found = slot_of(&self.names, Some(number))?;
        let made = refill_block(&mut self.store, &self.names, found.slot, bytes, flags, sink)?;
        let grown = Grown {
            done: made.slot.is_some(),
            searches: made.searches,
        };
        Ok(self.account(grown)?)
    }

    /// Makes a new handle, an application's own, with a block of these bytes and properties, counts
    /// the searches for room, and reports the blocks that are purged to a sink, if it listens.
    pub(crate) fn fill_handle<K: PurgeSink>(
        &mut self,
        bytes: &[u8],
        flags: Flags,
        sink: &mut K,
    ) -> Result<usize, Refusal>
        requires idle { IsIdle K.told K.waits sink.old }
        ensures answer { IsAnswer (new_inside Plain flags bytes.now self.old.memory) result
            self.new.memory }
        ensures hears { Hears K.told K.waits K.listens (result ≢ Err Refusal.HostMemory)
            (purges_made (new_filled Plain flags bytes.now) self.old.memory.heap)
            sink.old sink.new }
        ensures stops { result ≡ Err Refusal.HostMemory
            → Stops S.TAKES_HOST K.told K.listens KeepsNames (Unreserved self.old.memory)
            (Some (slot_step nothing self.old.memory.heap)) self.old self.new sink.old sink.new }
        ensures lies { self.new.memory.window ≡ self.old.memory.window }
    {
        self.names.reserve(1)?;
        let made = fill_block(&mut self.store, &self.names, bytes, flags, sink)?;
        self.log.count(made.searches);
        Ok(name_handle(&mut self.names, made.slot)?)
    }

    /// Makes the handle of an answer, where one was made, a resource's, and returns the answer.
    fn own(&mut self, answer: Result<usize, Refusal>, guarded: bool) -> Result<usize, Refusal>
        ensures answer { result ≡ answer }
        ensures owned { self.new.memory ≡ inside (owned_by guarded answer) self.old.memory }
        ensures same { result ≡ Err Refusal.HostMemory → self.new ≡ self.old }
    {
        if let Ok(number) = answer {
            self.set_resource(number, true);
            self.set_guard(number, guarded);
        }
        answer
    }
}

/// Returns the size of a block for some bytes; where there are too many bytes for any block, a size
/// that no block has.
pub(crate) fn size_of(bytes: &[u8]) -> u32
    ensures { IsSizeOf (length bytes.now) result }
{
    u32::try_from(bytes.len()).unwrap_or(u32::MAX)
}

/// Writes bytes into the new block of `slot`, whose size is their number, and sets the block's
/// properties.
fn fill_new<S: BlockStore>(store: &mut S, slot: u32, bytes: &[u8], flags: Flags)
    requires { IsFresh slot (length bytes.now) (S.zone store.old) }
    ensures zone { IsReplaced slot flags bytes.now (S.zone store.old) (S.zone store.new) }
    ensures nonrelocatable { KeepsNonrelocatable (S.zone store.old) (S.zone store.new) }
    ensures rest { IsRest (S.rest store.old) (S.rest store.new) }
{
    let Some(place) = store.place_of(slot) else {
        unreachable!()
    };
    store.write(place, 0, bytes);
    store.set_flags(place, flags);
}

/// Puts a new block of these bytes and properties where there is room, under a new slot, and
/// returns that slot; `None` where there is no unused slot and no room for more, where the block
/// would be too large, or where there is no room for the block. The blocks that are purged for the
/// slot, and then those for the block, are reported to a sink, if it listens.
pub fn fill_block<S: BlockStore, K: PurgeSink>(
    store: &mut S,
    names: &[Anchor],
    bytes: &[u8],
    flags: Flags,
    sink: &mut K,
) -> Result<Taken, AllocError>
    requires idle { IsIdle K.told K.waits sink.old }
    ensures hears { Hears K.told K.waits K.listens (IsOk result) (told_along names.now nothing
        (seek_new Nothing (S.rest store.old).unused (length bytes.now)
        (fresh_block 0 (length bytes.now)) (S.zone store.old)) (S.zone store.old))
        sink.old sink.new }
    ensures left { OnErr result (IsTrue S.TAKES_HOST
        ⊎ LeavesSlot K.told names.now Nothing (S.zone store.old)
        (S.rest store.old) (S.zone store.new) (S.rest store.new) sink.old sink.new) }
    ensures went { IfOk result (λ r. Went nothing (S.zone store.old)
        (seek_new Nothing (S.rest store.old).unused (length bytes.now)
        (Relocatable (unwrap_or r.slot 0) flags bytes.now) (S.zone store.old))
        (is_some r.slot) r.searches (S.zone store.new) (S.rest store.old) (S.rest store.new)) }
    ensures slot { IfOk result (λ r. HasSlot r.slot (S.rest store.old) (S.rest store.new)) }
    ensures kept { OnErr result (HasMore (S.rest store.old) (S.rest store.new)) }
    ensures nonrelocatable { KeepsNonrelocatable (S.zone store.old) (S.zone store.new) }
    ensures host { IsErr result → IsTrue S.TAKES_HOST ⊎ (K.listens sink.old ≡ true) }
{
    let size = size_of(bytes);
    let made = new_block(store, names, size, Sparing::Nothing, sink)?;
    let Some(slot) = made.slot else {
        return Ok(made);
    };
    fill_new(store, slot, bytes, flags);
    Ok(made)
}

/// Puts a new block of these bytes and properties, where there is room, for `slot`, which has none,
/// and returns the slot; `None`, and nothing changes, where the block would be too large or there is
/// no room. The blocks that are purged for it are reported to a sink, if it listens.
fn refill_block<S: BlockStore, K: PurgeSink>(
    store: &mut S,
    names: &[Anchor],
    slot: u32,
    bytes: &[u8],
    flags: Flags,
    sink: &mut K,
) -> Result<Taken, AllocError>
    requires idle { IsIdle K.told K.waits sink.old }
    requires used { IsTrue (is_used ((S.rest store.old).slots slot)) }
    requires none { has (is_relocatable slot) (S.zone store.old) ≡ false }
    ensures went { IfOk result (λ r. Went nothing (S.zone store.old)
        (seek_block Nothing (length bytes.now) (Relocatable slot flags bytes.now) (S.zone store.old))
        (is_some r.slot) r.searches (S.zone store.new) (S.rest store.old) (S.rest store.new)) }
    ensures rest { KeepsSlots (S.rest store.old) (S.rest store.new) }
    ensures nonrelocatable { KeepsNonrelocatable (S.zone store.old) (S.zone store.new) }
    ensures hears { Hears K.told K.waits K.listens (IsOk result) (told_along names.now nothing
        (seek_block Nothing (length bytes.now) (fresh_block 0 (length bytes.now))
        (S.zone store.old)) (S.zone store.old)) sink.old sink.new }
    ensures halts { OnErr result (Halts S.TAKES_HOST K.told K.listens (S.zone store.old)
        (S.rest store.old) (S.zone store.new) (S.rest store.new) sink.old sink.new) }
{
    let size = size_of(bytes);
    let made = put_block(store, names, slot, size, Sparing::Nothing, sink)?;
    let Some(filled) = made.slot else {
        return Ok(made);
    };
    fill_new(store, filled, bytes, flags);
    Ok(made)
}

/// Makes a new handle of a resource, unguarded, under the next number, for which `names` has room,
/// and returns the number; `None` where the block finds no room. The blocks that are purged for it
/// are reported to a sink, if it listens.
fn add_resource<S: BlockStore, K: PurgeSink>(
    store: &mut S,
    names: &mut Vec<Anchor>,
    log: &mut Log,
    bytes: &[u8],
    flags: Flags,
    sink: &mut K,
) -> Result<Option<usize>, AllocError>
    requires agrees { Agrees (S.zone store.old) (S.rest store.old) names.old.items }
    requires room { vec_len names.old < vec_capacity names.old }
    requires idle { IsIdle K.told K.waits sink.old }
    ensures told { OnOk result (K.listens sink.old ≡ true
        → Tells K.told (purges_made (new_filled Resource flags bytes.now) (memory_of
        (S.zone store.old) (S.rest store.old) names.old.items log.old).heap) sink.old sink.new) }
    ensures rests { Rests K.told K.waits K.listens sink.old sink.new }
    ensures left { OnErr result (IsTrue S.TAKES_HOST ⊎ LeavesUnmade K.told
        (memory_of (S.zone store.old) (S.rest store.old) names.old.items log.old) (memory_of
        (S.zone store.new) (S.rest store.new) names.new.items log.new) sink.old sink.new) }
    ensures agrees { Agrees (S.zone store.new) (S.rest store.new) names.new.items }
    ensures next { IfOk result (λ number. IsNext flags bytes.now
        (memory_of (S.zone store.old) (S.rest store.old) names.old.items log.old) number
        (memory_of (S.zone store.new) (S.rest store.new) names.new.items log.new)) }
    ensures len { vec_len names.new ≤ vec_len names.old + 1 }
    ensures capacity { vec_capacity names.new ≡ vec_capacity names.old }
    ensures reserved { log.new.reserved ≡ log.old.reserved }
    ensures lies { (S.rest store.new).window ≡ (S.rest store.old).window }
    ensures host { IsErr result → IsTrue S.TAKES_HOST ⊎ (K.listens sink.old ≡ true) }
{
    let made = fill_block(store, names, bytes, flags, sink)?;
    log.count(made.searches);
    let Some(slot) = made.slot else {
        return Ok(None);
    };
    let number = names.len();
    names.push_reserved(Anchor::Handle {
        slot,
        guarded: false,
    });
    store.set_resource(slot, true);
    Ok(Some(number))
}

/// Makes new handles of resources in order, and adds the number of each, or `None`, to `numbers`;
/// `names` and `numbers` have room for all. The blocks that are purged for each in turn are
/// reported to a sink, if it listens.
fn add_resources<S: BlockStore, K: PurgeSink>(
    store: &mut S,
    names: &mut Vec<Anchor>,
    log: &mut Log,
    wanted: &[Filling<'_>],
    numbers: &mut Vec<Option<usize>>,
    sink: &mut K,
) -> Result<(), AllocError>
    requires agrees { Agrees (S.zone store.old) (S.rest store.old) names.old.items }
    requires room { vec_len names.old + length wanted.now ≤ vec_capacity names.old }
    requires numbers { vec_len numbers.old + length wanted.now ≤ vec_capacity numbers.old }
    requires first { numbers.old.items ≡ [] }
    requires idle { IsIdle K.told K.waits sink.old }
    ensures told { OnOk result (K.listens sink.old ≡ true
        → Tells K.told (all_gone (map wanted_as wanted.now) (memory_of (S.zone store.old)
        (S.rest store.old) names.old.items log.old)) sink.old sink.new) }
    ensures rests { Rests K.told K.waits K.listens sink.old sink.new }
    ensures left { OnErr result (IsTrue S.TAKES_HOST ⊎ MadeSome K.told (map wanted_as wanted.now)
        (memory_of (S.zone store.old) (S.rest store.old) names.old.items log.old) numbers.new.items
        (memory_of (S.zone store.new) (S.rest store.new) names.new.items log.new)
        sink.old sink.new) }
    ensures agrees { Agrees (S.zone store.new) (S.rest store.new) names.new.items }
    ensures answer { OnOk result (new_all (map wanted_as wanted.now)
        (memory_of (S.zone store.old) (S.rest store.old) names.old.items log.old)
        ≡ (
          numbers.new.items,
          memory_of (S.zone store.new) (S.rest store.new) names.new.items log.new,
        )) }
    ensures lies { (S.rest store.new).window ≡ (S.rest store.old).window }
    ensures capacity { vec_capacity names.new ≡ vec_capacity names.old }
    ensures reserved { log.new.reserved ≡ log.old.reserved }
    ensures host { IsErr result → IsTrue S.TAKES_HOST ⊎ (K.listens sink.old ≡ true) }
{
    for filling in wanted {
        let number = add_resource(store, names, log, filling.bytes, filling.flags, sink)?;
        numbers.push_reserved(number);
    }
    Ok(())
}
