//! Room at the base of a run of movable blocks.

ghost use Rattle.std.specs.Prelude.{◌≡◌, ◌+◌, ◌≤◌, ◌<◌, ◌%◌, IfOk, OnErr, is_some};
ghost use Rattle.block_store.specs.Block.{Block, Masters, size as size_of};
ghost use Rattle.block_store.specs.Sparing.{spared};
ghost use Rattle.moves.specs.Moves.{Base};
ghost use Rattle.moves.specs.Seeking.{seek};
ghost use Rattle.heap_calls.specs.Inner.Making.{MakesRoom, HasRoomAt};
ghost use Rattle.heap_calls.specs.Inner.Numbered.{KeepsNonrelocatable};
ghost use Rattle.heap_calls.specs.Inner.NewSlot.{HasMore, GainsSlots, TakesSlot, seek_unused};
ghost use Rattle.heap_calls.specs.Inner.Went.{Went, told_along};
ghost use Rattle.heap_calls.specs.Gone.{IsIdle, Hears};
ghost use Rattle.heap_calls.specs.Inner.Halting.{Halts};
ghost use Rattle.heap_calls.specs.Inner.Packed.{KeepsAllButPlaced, PacksNone};
ghost use Rattle.heap_calls.specs.Inner.Telling.{OpensNone};
ghost use Rattle.block_store.specs.declared.measures.TheConstants.{GREATEST_ZONE};
ghost use Rattle.std.specs.Prelude.{IsOk};

use crate::anchor::Anchor;
use crate::least::count_for_run;
use crate::search::Room;
use crate::sink::PurgeSink;
use crate::telling::purge_telling;
use block_store::{BlockStore, MASTERS_SIZE, Sparing};
use std::alloc::AllocError;

/// Makes a free block of `bytes` bytes at the base of the lowest run that has as many free bytes
/// after as few purges as serve, and returns the place of that block; `None`, and nothing changes,
/// where no run has them. The blocks that are purged for it are reported to a sink, if it listens.
///
/// *Inside Macintosh: Memory*, chapter 1, "Memory Reservation".
pub fn make_base<S: BlockStore, K: PurgeSink>(
    store: &mut S,
    names: &[Anchor],
    bytes: u32,
    sparing: Sparing,
    sink: &mut K,
) -> Result<Room, AllocError>
    requires positive { 0 < bytes }
    requires even { bytes % 16 ≡ 0 }
    requires whole { OpensNone sparing }
    requires idle { IsIdle K.told K.waits sink.old }
    ensures went { IfOk result (λ r. MakesRoom bytes Base (spared sparing) (S.zone store.old) r
        (S.zone store.new) (S.rest store.old) (S.rest store.new)) }
    ensures room { IfOk result (λ r. HasRoomAt bytes r.place (S.zone store.new)) }
    ensures few { IfOk result (λ r. r.searches ≤ GREATEST_ZONE + 1) }
    ensures nonrelocatable { KeepsNonrelocatable (S.zone store.old) (S.zone store.new) }
    ensures rest { KeepsAllButPlaced (S.rest store.old) (S.rest store.new) }
    ensures hears { (new : Block) → size_of new ≡ bytes → Hears K.told K.waits K.listens
        (IsOk result) (told_along names.now (spared sparing)
        (seek (Base new) (spared sparing) (S.zone store.old)) (S.zone store.old))
        sink.old sink.new }
    ensures halts { OnErr result (Halts S.TAKES_HOST K.told K.listens (S.zone store.old)
        (S.rest store.old) (S.zone store.new) (S.rest store.new) sink.old sink.new) }
{
    let counted = count_for_run(store, bytes, sparing);
    let searches = counted.purges + 1;
    if !counted.there {
        return Ok(Room {
            place: None,
            searches,
        });
    }
    purge_telling(store, names, counted.purges, sparing, sink)?;
    let Some(run) = store.find_run(bytes) else {
        unreachable!()
    };
    store.raise(run, bytes)?;
    Ok(Room {
        place: Some(run),
        searches,
    })
}

/// Puts a master pointer block, with 64 unused slots, at the base of a run, where there is room for
/// the block. The blocks that are purged for it are reported to a sink, if it listens.
///
/// *Inside Macintosh: Memory*, chapter 2, "Allocating Master Pointers".
pub fn make_masters<S: BlockStore, K: PurgeSink>(
    store: &mut S,
    names: &[Anchor],
    sparing: Sparing,
    sink: &mut K,
) -> Result<Room, AllocError>
    requires whole { OpensNone sparing }
    requires idle { IsIdle K.told K.waits sink.old }
    ensures went { IfOk result (λ r. Went (spared sparing) (S.zone store.old)
        (seek (Base Masters) (spared sparing) (S.zone store.old))
        (is_some r.place) r.searches (S.zone store.new) (S.rest store.old) (S.rest store.new)) }
    ensures slots { IfOk result (λ r. GainsSlots r.place (S.rest store.old) (S.rest store.new)) }
    ensures nonrelocatable { KeepsNonrelocatable (S.zone store.old) (S.zone store.new) }
    ensures kept { OnErr result (HasMore (S.rest store.old) (S.rest store.new)) }
    ensures few { IfOk result (λ r. r.searches ≤ GREATEST_ZONE + 1) }
    ensures moves { PacksNone (S.rest store.old) (S.rest store.new) }
    ensures hears { Hears K.told K.waits K.listens (IsOk result) (told_along names.now
        (spared sparing) (seek (Base Masters) (spared sparing) (S.zone store.old))
        (S.zone store.old)) sink.old sink.new }
    ensures halts { OnErr result (Halts S.TAKES_HOST K.told K.listens (S.zone store.old)
        (S.rest store.old) (S.zone store.new) (S.rest store.new) sink.old sink.new) }
{
    let room = make_base(store, names, MASTERS_SIZE, sparing, sink)?;
    if let Some(place) = room.place {
        store.add_masters(place)?;
    }
    Ok(room)
}

/// A slot, if there was one to take, and the number of searches for room that were made for it.
#[derive(Clone, Copy)]
pub struct Taken {
    pub slot: Option<u32>,
    pub searches: u32,
}

/// Takes an unused slot for a new handle; where all slots are used, a master pointer block with 64
/// more is made first, and the blocks that are purged for it are reported to a sink, if it listens.
pub fn make_slot<S: BlockStore, K: PurgeSink>(
    store: &mut S,
    names: &[Anchor],
    sparing: Sparing,
    sink: &mut K,
) -> Result<Taken, AllocError>
    requires whole { OpensNone sparing }
    requires idle { IsIdle K.told K.waits sink.old }
    ensures went { IfOk result (λ r. Went (spared sparing) (S.zone store.old)
        (seek_unused sparing (S.rest store.old).unused (S.zone store.old))
        (is_some r.slot) r.searches (S.zone store.new) (S.rest store.old) (S.rest store.new)) }
    ensures slot { IfOk result (λ r. TakesSlot r.slot (S.rest store.old) (S.zone store.new)
        (S.rest store.new)) }
    ensures nonrelocatable { KeepsNonrelocatable (S.zone store.old) (S.zone store.new) }
    ensures kept { OnErr result (HasMore (S.rest store.old) (S.rest store.new)) }
    ensures few { IfOk result (λ r. r.searches ≤ GREATEST_ZONE + 1) }
    ensures moves { PacksNone (S.rest store.old) (S.rest store.new) }
    ensures hears { Hears K.told K.waits K.listens (IsOk result) (told_along names.now
        (spared sparing) (seek_unused sparing (S.rest store.old).unused (S.zone store.old))
        (S.zone store.old)) sink.old sink.new }
    ensures halts { OnErr result (Halts S.TAKES_HOST K.told K.listens (S.zone store.old)
        (S.rest store.old) (S.zone store.new) (S.rest store.new) sink.old sink.new) }
{
    if let Some(slot) = store.take_slot() {
        return Ok(Taken {
            slot: Some(slot),
            searches: 0,
        });
    }
    let room = make_masters(store, names, sparing, sink)?;
    let searches = room.searches;
    let Some(_) = room.place else {
        return Ok(Taken {
            slot: None,
            searches,
        });
    };
    let Some(slot) = store.take_slot() else {
        unreachable!()
    };
    Ok(Taken {
        slot: Some(slot),
        searches,
    })
}
