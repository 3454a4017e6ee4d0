//! New relocatable blocks.

ghost use Rattle.heap_calls.specs.Inner.Numbered.{KeepsNonrelocatable};
ghost use Rattle.std.specs.Prelude.{◌≡◌, ◌⊎◌, ◌≤◌, ◌+◌, true, false, IfOk, IfSome, OnErr, IsErr};
ghost use Rattle.std.specs.Prelude.{IsTrue, IsOk, is_some, MatchOption, if◌then◌else◌};
ghost use Rattle.mac_words.specs.Size.{phys as physical_size};
ghost use Rattle.heap_calls.specs.Gone.{IsIdle, Hears};
ghost use Rattle.heap_calls.specs.Inner.Halting.{Halts};
ghost use Rattle.heap_calls.specs.Inner.Telling.{OpensNone, LeavesSlot};
ghost use Rattle.block_store.specs.Block.{is_relocatable};
ghost use Rattle.block_store.specs.Rest.{KeepsSlots};
ghost use Rattle.block_store.specs.Run.{has};
ghost use Rattle.block_store.specs.Slot.{is_used};
ghost use Rattle.block_store.specs.Sparing.{opened, spared};
ghost use Rattle.block_store.specs.declared.measures.TheConstants.{GREATEST_ZONE};
ghost use Rattle.heap_calls.specs.Inner.NewBlock.{MakesBlock, IsFresh, KeepsTaken, fresh_block};
ghost use Rattle.heap_calls.specs.Inner.NewBlock.{given_back, seek_block, seek_new};
ghost use Rattle.heap_calls.specs.Inner.NewSlot.{HasMore, HasSlot};
ghost use Rattle.heap_calls.specs.Inner.Went.{told_along};

use crate::anchor::Anchor;
use crate::base::{Taken, make_slot};
use crate::search::make_room;
use crate::sink::PurgeSink;
use block_store::{BlockStore, Sparing};
use mac_words::phys;
use std::alloc::AllocError;

/// Puts a new block of `size` bytes, all 0, for `slot`, which has no block but one that counts as
/// free, where there is room, and returns the slot; `None`, and nothing changes, where the block
/// would be too large or there is no room. The blocks that are purged for it are reported to a
/// sink, if it listens.
///
/// *Inside Macintosh: Memory*, chapter 1, "Allocating Blocks of Memory".
pub fn put_block<S: BlockStore, K: PurgeSink>(
    store: &mut S,
    names: &[Anchor],
    slot: u32,
    size: u32,
    sparing: Sparing,
    sink: &mut K,
) -> Result<Taken, AllocError>
    requires idle { IsIdle K.told K.waits sink.old }
    requires used { IsTrue (is_used ((S.rest store.old).slots slot)) }
    requires none { has (is_relocatable slot) (opened sparing (S.zone store.old)) ≡ false }
    ensures went { IfOk result (λ r. MakesBlock (spared sparing) size (seek_block sparing size)
        (opened sparing (S.zone store.old)) r
        (if is_some r.slot then S.zone store.new else opened sparing (S.zone store.old))
        (S.rest store.old) (S.rest store.new)) }
    ensures slot { IfOk result (λ r.
        MatchOption r.slot (S.zone store.new ≡ S.zone store.old) (λ made. made ≡ slot)) }
    ensures fresh { IfOk result (λ r. IfSome r.slot
        (λ made. IsFresh made size (S.zone store.new))) }
    ensures fits { IfOk result (λ r. IfSome r.slot (λ _. is_some (physical_size size) ≡ true)) }
    ensures lacks { OnErr result (has (is_relocatable slot) (S.zone store.old) ≡ false
        → has (is_relocatable slot) (S.zone store.new) ≡ false) }
    ensures rest { KeepsSlots (S.rest store.old) (S.rest store.new) }
    ensures nonrelocatable { KeepsNonrelocatable (S.zone store.old) (S.zone store.new) }
    ensures few { IfOk result (λ r. r.searches ≤ GREATEST_ZONE + 1) }
    ensures hears { Hears K.told K.waits K.listens (IsOk result) (told_along names.now
        (spared sparing) (seek_block sparing size (fresh_block 0 size)
        (opened sparing (S.zone store.old))) (opened sparing (S.zone store.old)))
        sink.old sink.new }
    ensures halts { OnErr result (Halts S.TAKES_HOST K.told K.listens (S.zone store.old)
        (S.rest store.old) (S.zone store.new) (S.rest store.new) sink.old sink.new) }
{
    let Some(bytes) = phys(size) else {
        return Ok(Taken {
            slot: None,
            searches: 0,
        });
    };
    let room = make_room(store, names, bytes, sparing, sink)?;
    let searches = room.searches;
    let Some(place) = room.place else {
        return Ok(Taken {
            slot: None,
            searches,
        });
    };
    store.carve(place, slot, size)?;
    Ok(Taken {
        slot: Some(slot),
        searches,
    })
}

/// Puts a new block of `size` bytes, all 0, for `slot` where there is room, and returns the slot;
/// `None` where the block would be too large or there is no room. The slot is then unused again.
/// The blocks that are purged for it are reported to a sink, if it listens.
fn add_block<S: BlockStore, K: PurgeSink>(
    store: &mut S,
    names: &[Anchor],
    slot: u32,
    size: u32,
    sparing: Sparing,
    sink: &mut K,
) -> Result<Taken, AllocError>
    requires whole { OpensNone sparing }
    requires idle { IsIdle K.told K.waits sink.old }
    requires used { IsTrue (is_used ((S.rest store.old).slots slot)) }
    requires none { has (is_relocatable slot) (S.zone store.old) ≡ false }
    ensures went { IfOk result (λ r. MakesBlock (spared sparing) size (seek_block sparing size)
        (S.zone store.old) r (S.zone store.new) (S.rest store.old) (S.rest store.new)) }
    ensures fresh { IfOk result (λ r. IfSome r.slot
        (λ made. IsFresh made size (S.zone store.new))) }
    ensures fits { IfOk result (λ r. IfSome r.slot (λ _. is_some (physical_size size) ≡ true)) }
    ensures slot { IfOk result (λ r. KeepsTaken slot r.slot (S.rest store.old) (S.rest store.new)) }
    ensures kept { OnErr result
        (KeepsSlots (given_back slot (S.rest store.old)) (S.rest store.new)) }
    ensures nonrelocatable { KeepsNonrelocatable (S.zone store.old) (S.zone store.new) }
    ensures few { IfOk result (λ r. r.searches ≤ GREATEST_ZONE + 1) }
    ensures hears { Hears K.told K.waits K.listens (IsOk result) (told_along names.now
        (spared sparing) (seek_block sparing size (fresh_block 0 size) (S.zone store.old))
        (S.zone store.old)) sink.old sink.new }
    ensures halts { OnErr result
        (Halts S.TAKES_HOST K.told K.listens (S.zone store.old) (given_back slot (S.rest store.old))
        (S.zone store.new) (S.rest store.new) sink.old sink.new) }
{
    let made = match put_block(store, names, slot, size, sparing, sink) {
        Ok(made) => made,
        Err(error) => {
            store.give_slot(slot);
            return Err(error);
        }
    };
    let Some(_) = made.slot else {
        store.give_slot(slot);
        return Ok(made);
    };
    Ok(made)
}

/// Puts a new block of `size` bytes, all 0, where there is room, under a new slot, and returns that
/// slot; `None` where there is no unused slot and no room for more, where the block would be too
/// large, or where there is no room for the block. The blocks that are purged for the slot, and
/// then those for the block, are reported to a sink, if it listens.
pub fn new_block<S: BlockStore, K: PurgeSink>(
    store: &mut S,
    names: &[Anchor],
    size: u32,
    sparing: Sparing,
    sink: &mut K,
) -> Result<Taken, AllocError>
    requires whole { OpensNone sparing }
    requires idle { IsIdle K.told K.waits sink.old }
    ensures hears { Hears K.told K.waits K.listens (IsOk result) (told_along names.now
        (spared sparing) (seek_new sparing (S.rest store.old).unused size (fresh_block 0 size)
        (S.zone store.old)) (S.zone store.old)) sink.old sink.new }
    ensures left { OnErr result (IsTrue S.TAKES_HOST
        ⊎ LeavesSlot K.told names.now sparing (S.zone store.old)
        (S.rest store.old) (S.zone store.new) (S.rest store.new) sink.old sink.new) }
    ensures went { IfOk result (λ r. MakesBlock (spared sparing) size
        (seek_new sparing (S.rest store.old).unused size) (S.zone store.old) r
        (S.zone store.new) (S.rest store.old) (S.rest store.new)) }
    ensures fresh { IfOk result (λ r. IfSome r.slot
        (λ slot. IsFresh slot size (S.zone store.new))) }
    ensures fits { IfOk result (λ r. IfSome r.slot (λ _. is_some (physical_size size) ≡ true)) }
    ensures slot { IfOk result (λ r. HasSlot r.slot (S.rest store.old) (S.rest store.new)) }
    ensures kept { OnErr result (HasMore (S.rest store.old) (S.rest store.new)) }
    ensures nonrelocatable { KeepsNonrelocatable (S.zone store.old) (S.zone store.new) }
    ensures host { IsErr result → IsTrue S.TAKES_HOST ⊎ (K.listens sink.old ≡ true) }
{
    let taken = make_slot(store, names, sparing, sink)?;
    let Some(slot) = taken.slot else {
        return Ok(taken);
    };
    let made = add_block(store, names, slot, size, sparing, sink)?;
    Ok(Taken {
        slot: made.slot,
        searches: taken.searches + made.searches,
    })
}
